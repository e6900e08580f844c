//! What labels say of the end of another.
ghost use Rattle.ml_cert.specs.Near.{IsSooner, IsSoonest};

/// What a label says of the end of another.
#[derive(Clone, Copy)]
pub enum Stance {
    /// It comes later, or allows the end and does not block it.
    Aside,
    /// It comes before, allows the end, and blocks it.
    Blocker,
    /// It may refuse the end.
    Refuser,
}

/// The sooner of what was due and another place.
pub fn sooner(due: Option<usize>, place: usize) -> usize
    ensures { IsSooner due place result }
{
    match due {
        Some(first) if first < place => first,
        _ => place,
    }
}

/// The sooner of what was due and what is due by others.
pub fn soonest(due: Option<usize>, other: Option<usize>) -> Option<usize>
    ensures { IsSoonest due other result }
{
    match other {
        None => due,
        Some(place) => Some(sooner(due, place)),
    }
}
