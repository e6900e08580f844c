//! Laws of lists from whose front something goes, and at whose end something comes. Each function
//! takes nothing and does nothing: its contract is the law, for all values. A crate above uses a law
//! by calling it.
ghost use Rattle.std.specs.Prelude.{◌≡◌, ◌++◌, [], ℕ, List, Option};
ghost use Rattle.ml_io.specs.Causes.{Appends, AppendsPart};
ghost use Rattle.ml_io.specs.Takes.{Takes};

/// A list of which nothing is taken is as it was.
pub fn take_nothing<A>()
    ensures { (told : Option (List A)) → Takes told told [] }
{}

/// What is taken from the front, and then what is taken from what is left, is the two together.
pub fn take_twice<A>()
    ensures { (old between new : Option (List A)) (first second : List A) →
        Takes old between first → Takes between new second → Takes old new (first ++ second) }
{}

/// A list to which nothing is added is as it was.
pub fn append_nothing<A>()
    ensures { (told : Option (List A)) → Appends told told [] }
{}

/// What is put at the end, and then what is put behind it, is the two together.
pub fn append_twice<A>()
    ensures { (old between new : Option (List A)) (first second : List A) →
        Appends old between first → Appends between new second → Appends old new (first ++ second) }
{}

/// A whole piece, and then a part of the next one, is a part of the two together.
pub fn append_part_after()
    ensures { (old between new : Option (List ℕ)) (whole next : List ℕ) →
        Appends old between whole → AppendsPart between new next →
        AppendsPart old new (whole ++ next) }
{}

/// A part of a piece is a part of a longer one.
pub fn part_of_more()
    ensures { (old new : Option (List ℕ)) (piece more : List ℕ) →
        AppendsPart old new piece → AppendsPart old new (piece ++ more) }
{}
