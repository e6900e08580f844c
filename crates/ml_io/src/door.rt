//! Where connections come in.
ghost use Rattle.std.specs.Prelude.{◌≡◌, ◌∷◌, ℕ, List, [], Bool, true, false, Option, Some, None, IfOk, OnErr, is_ok, is_some};
ghost use Rattle.ml_io.specs.Causes.{Appends, HasCause};
ghost use Rattle.ml_io.specs.Takes.{GivesNext};
ghost use Rattle.ml_io.specs.declared.link.Link.{Link};

use crate::failed::Failed;
use crate::link::Link;
use crate::sink::Sink;
use crate::source::Source;

/// Something that gives connections, one after another, and takes them back.
pub trait Door {
    /// Where the bytes of its connections come from.
    type In: Source;

    /// Where the replies go.
    type Out: Sink;

    /// Its port, once it has one. A new door has none.
    ghost at_port: { Self → Option ℕ };

    /// Whether it listens.
    ghost listens: { Self → Bool };

    /// Whether a link is out. At most one is.
    ghost is_out: { Self → Bool };

    /// The connections to come, where the door tells them.
    ghost coming: { Self → Option (List (Link Self.In Self.Out)) };

    /// The links done, in order, where the door tells them.
    ghost served: { Self → Option (List (Link Self.In Self.Out)) };

    /// How often it has failed. The count never falls.
    ghost faults: { Self → ℕ };

    /// Listens on a port, which is its port from then on, also where that fails. It listens exactly
    /// after Ok.
    ///
    /// # Errors
    /// `Failed` comes only where the count of faults rose in this call.
    fn listen(&mut self, port: u16) -> Result<(), Failed>
        requires { at_port self.old ≡ None }
        ensures port { at_port self.new ≡ Some port }
        ensures listens { listens self.new ≡ is_ok result }
        ensures same { (is_out self.new ≡ is_out self.old) × (coming self.new ≡ coming self.old)
            × (served self.new ≡ served self.old) }
        ensures cause { HasCause (faults self.old) (faults self.new) result };

    /// The next connection; none exactly where the told connections are used up. A link is out exactly
    /// after Some. A door that does not tell its connections never gives none.
    ///
    /// # Errors
    /// `Failed` comes only where the count of faults rose in this call; no link is out.
    fn next(&mut self) -> Result<Option<Link<Self::In, Self::Out>>, Failed>
        requires listens { listens self.old ≡ true }
        requires out { is_out self.old ≡ false }
        ensures ok { IfOk result (λ link. GivesNext (coming self.old) (coming self.new) link
            × (is_out self.new ≡ is_some link)) }
        ensures err { OnErr result
            ((coming self.new ≡ coming self.old) × (is_out self.new ≡ false)) }
        ensures same { (at_port self.new ≡ at_port self.old) × (listens self.new ≡ listens self.old)
            × (served self.new ≡ served self.old) }
        ensures cause { HasCause (faults self.old) (faults self.new) result };

    /// Takes a served link back, so that the door keeps what the link got. It cannot fail.
    fn done(&mut self, link: Link<Self::In, Self::Out>)
        requires { is_out self.old ≡ true }
        ensures last { Appends (served self.old) (served self.new) (link ∷ []) }
        ensures out { is_out self.new ≡ false }
        ensures same { (at_port self.new ≡ at_port self.old) × (listens self.new ≡ listens self.old)
            × (coming self.new ≡ coming self.old) }
        ensures faults { faults self.new ≡ faults self.old };
}
