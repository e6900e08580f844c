//! The text of a state.
ghost use Rattle.std.specs.Prelude.{◌≡◌, ◌++◌, ◌∷◌, [], ℕ, List, length, IfOk, OnOk, OnErr, IsUtf8};
ghost use Rattle.ml_cone.specs.declared.label.Label.{Label};
ghost use Rattle.ml_cone.specs.declared.slot.Slot.{Slot};
ghost use Rattle.ml_follow.specs.StateText.{head_line as spec_head_line, row_line as spec_row_line, begun_text, state_text};

use crate::line::{head_line, row_line};
use ml_cone::{Label, Slot};
use ml_ratio::{Ratio, Seq};
use std::alloc::{AllocError, Global};
use std::marker::Model;

/// The text of a state, fed with its labels in priority order.
///
/// The text grows with each label, so the labels themselves are not kept: contracts see the text so
/// far.
#[derive(Drop)]
pub struct StateText {
    text: Vec<u8>,
}

impl Model for StateText {
    ghost use Rattle.std.specs.Prelude.{List, ℕ};

    ghost Value = { List ℕ };

    ghost view = { λ t. t.text.items };
}

impl StateText {
    /// The text of this revision's state before its labels come, of which there are to be `count`.
    ///
    /// # Errors
    /// Out of memory.
    pub fn new(alloc: Global, rev: u64, count: u32) -> Result<StateText, AllocError>
        ensures head { IfOk result (λ text. text ≡ spec_head_line rev count) }
        ensures begun { IfOk result (λ text. text ≡ begun_text rev count [] []) }
    {
        let head = head_line(alloc, rev, count)?;
        Ok(StateText {
            text: head.into_bytes(),
        })
    }

    /// Adds a label behind those that were added before, with its end and the place of its blocker.
    ///
    /// # Errors
    /// Out of memory, which leaves the text as it was.
    pub fn add(
        &mut self,
        label: &Label,
        until: Ratio,
        blocker: Option<u32>,
    ) -> Result<(), AllocError>
        ensures row { OnOk result (self.new
            ≡ self.old ++ spec_row_line label.now (record { until = until; blocker = blocker })) }
        ensures begun { OnOk result ((rev count : ℕ) (labels : List Label) (slots : List Slot) →
            length slots ≡ length labels →
            self.old ≡ begun_text rev count labels slots →
            self.new ≡ begun_text rev count (labels ++ label.now ∷ [])
            (slots ++ record { until = until; blocker = blocker } ∷ [])) }
        ensures id { IsUtf8 label.now.order.id }
        ensures err { OnErr result (self.new ≡ self.old) }
    {
        let alloc = *self.text.allocator();
        let _id = label.id().as_str();
        let line = row_line(alloc, label, Slot { until, blocker })?;
        self.text.extend_from_slice(&line)?;
        Ok(())
    }

    /// The text, in lines that end with LF: `state REV COUNT`, and for each label
    /// `ID X Y MIN MAX MARGIN UNTIL BLOCKER` with its boxes `l,b,r,t` behind, one space between. In ID a
    /// byte other than `A-Z a-z 0-9 - . _ ~ #` is `%` and two upper-case hexadecimal digits, and an
    /// empty id is `%`. Fractions are in lowest terms, BLOCKER is a place, counted from 0, or `-`.
    ///
    /// # Errors
    /// Out of memory.
    pub fn finish(self) -> Result<Seq<u8>, AllocError>
        ensures ok { IfOk result (λ text. text ≡ self) }
        ensures whole { IfOk result (λ text. (rev : ℕ) (labels : List Label) (slots : List Slot) →
            self ≡ begun_text rev (length labels) labels slots →
            text ≡ state_text rev labels slots) }
    {
        Ok(Seq::of_vec(self.text))
    }
}
