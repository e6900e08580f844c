//! Labels in strips from west to east, one behind another in a list, each from south to north.
use ml_conflict::{Area, Spot};

/// A strip: the spots from one place until another, and the area that holds their labels.
#[derive(Clone, Copy)]
pub struct Strip {
    pub from: usize,
    pub to: usize,
    pub area: Area,
}

/// The spots of labels, and the strips that they make.
#[derive(Clone, Copy)]
pub struct Field<'a> {
    pub spots: &'a [Spot],
    pub strips: &'a [Strip],
}
