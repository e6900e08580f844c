//! The types of geometry that have coordinates of their own (RFC 7946, section 3.1).
ghost use Rattle.std.specs.Prelude.{◌≡◌};
ghost use Rattle.std.specs.Option.{option_map, option_copied};
ghost use Rattle.ml_json.specs.Lent.{lent_of};
ghost use Rattle.ml_geojson.specs.Geometry.{kind_of as spec_kind_of};

use crate::members::is_text;
use ml_json::Lent;

/// A type of geometry.
#[derive(Clone, Copy)]
pub enum Kind {
    Point,
    MultiPoint,
    LineString,
    MultiLineString,
    Polygon,
    MultiPolygon,
}

/// The kind that a type names; none for any other value.
pub fn kind_of(value: Option<&Lent>) -> Option<Kind>
    ensures { result ≡ spec_kind_of (option_map lent_of (option_copied value.entry)) }
{
    if is_text(value, "Point") {
        Some(Kind::Point)
    } else if is_text(value, "MultiPoint") {
        Some(Kind::MultiPoint)
    } else if is_text(value, "LineString") {
        Some(Kind::LineString)
    } else if is_text(value, "MultiLineString") {
        Some(Kind::MultiLineString)
    } else if is_text(value, "Polygon") {
        Some(Kind::Polygon)
    } else if is_text(value, "MultiPolygon") {
        Some(Kind::MultiPolygon)
    } else {
        None
    }
}
