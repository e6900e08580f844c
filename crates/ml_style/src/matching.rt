//! The class of a feature.
ghost use Rattle.std.specs.Prelude.{◌≡◌, ◌<◌, IfSome, length, position};
ghost use Rattle.std.specs.Option.{option_copied};
ghost use Rattle.std.specs.List.{list_any};
ghost use Rattle.ml_style.specs.Matching.{first_match, applies as applies_there, kind_of as kind_there, meets as meets_there, matches as matches_there, same_text, text_of};

use crate::class::{Class, Kind};
use crate::style::Style;
use ml_ratio::{Feature, Geometry, Prop, Scalar};

/// The place, counted from 0, of the first class of the style that applies to the feature: its kind is
/// that of the feature's shape, and it has no rule or a property of the feature meets it.
///
/// None exactly where no class applies or the feature has no shape.
pub fn class_of(style: &Style, feature: &Feature) -> Option<usize>
    ensures value { result ≡ first_match style.now feature.now }
    ensures within { IfSome result (λ k. k < length style.now.classes) }
{
    match &feature.geometry {
        Some(shape) => first_of(
            style.classes.as_slice(),
            kind_of(shape),
            feature.props.as_slice(),
        ),
        None => None,
    }
}

// The place of the first class that applies to features of this kind with these properties.
fn first_of(classes: &[Class], kind: Kind, props: &[Prop]) -> Option<usize>
    ensures value { result ≡ position (applies_there kind props.now) classes.now }
    ensures within { IfSome result (λ k. k < length classes.now) }
{
    classes.iter().position(|class| applies(class, kind, props))
}

// The kind of a shape.
fn kind_of(shape: &Geometry) -> Kind
    ensures { result ≡ kind_there shape.now }
{
    match shape {
        Geometry::Point(_) | Geometry::MultiPoint(_) => Kind::PointKind,
        Geometry::LineString(_) | Geometry::MultiLineString(_) => Kind::LineKind,
        Geometry::Polygon(_) | Geometry::MultiPolygon(_) => Kind::AreaKind,
    }
}

// Whether the class applies to features of this kind with these properties.
fn applies(class: &Class, kind: Kind, props: &[Prop]) -> bool
    ensures { result ≡ applies_there kind props.now class.now }
{
    class.kind == kind && meets(&class.rule, props)
}

// Whether the properties meet the rule, if there is one.
fn meets(rule: &Option<Prop>, props: &[Prop]) -> bool
    ensures { result ≡ meets_there rule.now props.now }
{
    match rule {
        Some(rule) => has_match(rule, props),
        None => true,
    }
}

// Whether one of the properties matches the rule.
fn has_match(rule: &Prop, props: &[Prop]) -> bool
    ensures { result ≡ list_any (matches_there rule.now) props.now }
{
    props.iter().any(|prop| matches(rule, prop))
}

// Whether the property has the key of the rule and its text.
fn matches(rule: &Prop, prop: &Prop) -> bool
    ensures { result ≡ matches_there rule.now prop.now }
{
    prop.key == rule.key && has_text(&prop.value, &rule.value)
}

// Whether both values have a text, and the same.
fn has_text(value: &Scalar, wanted: &Scalar) -> bool
    ensures { result ≡ same_text (text_of value.now) (text_of wanted.now) }
{
    match (text(value), text(wanted)) {
        (Some(found), Some(sought)) => found == sought,
        _ => false,
    }
}

// The text of a value; none for null.
fn text(value: &Scalar) -> Option<&str>
    ensures { option_copied result ≡ text_of value.now }
{
    match value {
        Scalar::Null => None,
        Scalar::Flag(true) => Some("true"),
        Scalar::Flag(false) => Some("false"),
        Scalar::Num(number) => Some(number.as_str()),
        Scalar::Str(string) => Some(string.as_str()),
    }
}
