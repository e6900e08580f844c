//! JSON values that borrow their texts from the bytes that they were read from.
ghost use Rattle.std.specs.Prelude.{◌≡◌, ℕ, List, nat_eq, refl, Some, IfOk, string_bytes, IsUtf8};
ghost use Rattle.std.proofs.Common.{rules};
ghost use Rattle.std.specs.Cmp.Lexicographic.{slice_cmp, pointwise};
ghost use Rattle.std.specs.Cmp.{partial_equiv_from_equiv, partial_order_from_agreeing_total};
ghost use Rattle.std.specs.Cmp.Rules.{comparing};
ghost use Rattle.std.proofs.lemmas.Cmp.{nat_list_cmp_total, nat_list_eq_equiv};
ghost use Rattle.std.specs.Ordering.{nat_cmp};

use ml_ratio::Text;
use std::alloc::{AllocError, Global};
use std::borrow::CowStr;
use std::cmp::Ordering;
use std::marker::Model;

/// A JSON value, as [`crate::Json`] but for its texts: strings of plain ASCII and numbers in a list or a
/// map are parts of the bytes that were read, and the rarer others are made.
#[derive(Drop)]
#[cycle(lent)]
pub enum Lent<'a> {
    /// `null`.
    Null,
    /// `true` or `false`.
    Flag(bool),
    /// A number, kept as its text.
    Num(LentText<'a>),
    /// A string, with its escapes read.
    Str(LentText<'a>),
    /// A list, in order.
    List(Vec<Lent<'a>>),
    /// A map. The reader gives its members in byte order of their keys, each key once.
    Map(Vec<LentPair<'a>>),
}

/// A member of a map.
#[derive(Drop)]
#[cycle(lent)]
pub struct LentPair<'a> {
    pub key: LentText<'a>,
    pub value: Lent<'a>,
}

/// A text in UTF-8, which is borrowed or, if it was made, its own. It is ordered and compared by its bytes.
#[derive(Drop)]
pub struct LentText<'a> {
    held: CowStr<'a>,
}

impl<'a> Model for LentText<'a> {
    ghost use Rattle.std.specs.Prelude.{List, ℕ};
    ghost use Rattle.std.specs.Cow.{cow_str_bytes};

    ghost Value = { List ℕ };

    ghost view = { λ a. cow_str_bytes a.held };
}

impl<'a> LentText<'a> {
    /// The text itself, borrowed.
    pub fn of(text: &'a str) -> LentText<'a>
        ensures { result ≡ text.now }
    {
        LentText {
            held: CowStr::Borrowed(text),
        }
    }

    /// The text of a string, which is moved in.
    pub fn of_string(text: String) -> LentText<'a>
        ensures { result ≡ string_bytes text }
    {
        LentText {
            held: CowStr::Owned(text),
        }
    }

    /// The text itself.
    pub fn as_str(&self) -> &str
        ensures bytes { result.now ≡ self.now }
        ensures utf8 { IsUtf8 self.now }
    {
        let text = self.held.as_str();
        let _bytes = text.as_bytes();
        text
    }

    /// A copy that borrows nothing.
    ///
    /// # Errors
    /// Out of memory.
    pub fn to_text(&self, alloc: Global) -> Result<Text, AllocError>
        ensures { IfOk result (λ t. t ≡ self.now) }
    {
        Text::of(alloc, self.held.as_str())
    }
}

impl<'a> PartialEq for LentText<'a> {
    ghost eq = { pointwise nat_eq };

    ghost laws = { partial_equiv_from_equiv nat_list_eq_equiv };

    fn eq(&self, other: &LentText<'a>) -> bool {
        self.held == other.held
    }
}

impl<'a> Eq for LentText<'a> {
    ghost laws = { nat_list_eq_equiv };
}

impl<'a> PartialOrd for LentText<'a> {
    ghost partial_cmp = { λ x y. Some (slice_cmp nat_cmp x y) };

    ghost laws = { partial_order_from_agreeing_total (slice_cmp nat_cmp) nat_list_cmp_total (λ x y. refl) (Prim.search (comparing, rules)) };

    fn partial_cmp(&self, other: &LentText<'a>) -> Option<Ordering> {
        Some(self.cmp(other))
    }
}

impl<'a> Ord for LentText<'a> {
    ghost cmp = { slice_cmp nat_cmp };

    ghost total = { nat_list_cmp_total };

    ghost matches_partial_cmp = { λ x y. refl };

    ghost matches_eq = { Prim.search (comparing, rules) };

    // (as bytes: texts that differ early are told apart sooner)
    fn cmp(&self, other: &LentText<'a>) -> Ordering {
        self.as_str().as_bytes().cmp(&other.as_str().as_bytes())
    }
}
