//! Features before they have their ids.
ghost use Rattle.ml_ratio.specs.Geometry.{IsSomeGeometry, IsSomeGeometry-prop};
ghost use Rattle.ml_ratio.specs.Feature.{HaveScalars, HaveScalars-prop, AreAscending};

use ml_ratio::{Geometry, Prop, Seq, Text};

/// What a feature is made of: the id that it has of its own, its shape and its properties.
#[derive(Drop)]
pub struct Draft {
    pub own: Option<Text>,
    pub geometry: Option<Geometry>,
    pub props: Seq<Prop>,
    ghost shaped: { IsSomeGeometry geometry } by { IsSomeGeometry-prop geometry },
    ghost scalars: { HaveScalars props } by { HaveScalars-prop props },
    ghost ascending: { AreAscending props },
}
