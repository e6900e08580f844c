//! The features of a group.
ghost use Rattle.std.specs.Prelude.{◌≡◌, ◌++◌, ◌+ℤ◌, All, IfOk, OnOk, map as mapped, flat_map};
ghost use Rattle.ml_ratio.specs.JsonNumber.{IsNumber};
ghost use Rattle.ml_ratio.specs.Geometry.{IsRing};
ghost use Rattle.ml_ratio.specs.World.{IsInWorld};
ghost use Rattle.ml_geojson.specs.Shape.{place_of};
ghost use Rattle.ml_gen.specs.Group.{IsNear, IsGroupPlace, IsStep};
ghost use Rattle.ml_gen.specs.Thing.{thing_of, id_of as group_id, text_prop as text_property, number_prop as number_property, town_props as town_properties, name_props as name_properties, place_from as spot_from, town as town_thing, first_town as first_thing, river as river_thing, area as area_thing, bends, corners, things_in};

use crate::group::Group;
use ml_ratio::{Feature, Geometry, Pos, Prop, Scalar, Seq, Text};
use std::alloc::{AllocError, Global};

/// The id of a group's feature: `g`, the number of the group, and a letter.
///
/// # Errors
/// Out of memory.
pub fn id_of(alloc: Global, group: &Group, letter: &str) -> Result<Text, AllocError>
    ensures { IfOk result (λ id. id ≡ group_id group.now letter.now) }
{
    let number = group.number;
    Ok(Text::of_string(format!(in alloc; "g{number}{letter}")?))
}

// A property that is a text.
fn text_prop(alloc: Global, key: &str, value: &str) -> Result<Prop, AllocError>
    ensures { IfOk result (λ prop. prop ≡ text_property key.now value.now) }
{
    Ok(Prop {
        key: Text::of(alloc, key)?,
        value: Scalar::Str(Text::of(alloc, value)?),
    })
}

// A property that is a number.
fn number_prop(alloc: Global, key: &str, value: &str) -> Result<Prop, AllocError>
    ensures { IfOk result (λ prop. prop ≡ number_property key.now value.now) }
{
    Ok(Prop {
        key: Text::of(alloc, key)?,
        value: Scalar::Num(Text::of(alloc, value)?),
    })
}

// The properties of a town.
fn town_props(alloc: Global, pop: &str) -> Result<Seq<Prop>, AllocError>
    ensures { IfOk result (λ props. props ≡ town_properties pop.now) }
{
    let mut props = Seq::new(alloc);
    props.push(text_prop(alloc, "name", "ab")?)?;
    props.push(text_prop(alloc, "place", "city")?)?;
    props.push(number_prop(alloc, "pop", pop)?)?;
    Ok(props)
}

// The properties of what has only a name.
fn name_props(alloc: Global, name: &str) -> Result<Seq<Prop>, AllocError>
    ensures { IfOk result (λ props. props ≡ name_properties name.now) }
{
    let mut props = Seq::new(alloc);
    props.push(text_prop(alloc, "name", name)?)?;
    Ok(props)
}

/// A coordinate so far from that of a group.
pub(crate) fn moved(v: i64, step: i64) -> i64
    requires near { IsNear v }
    requires step { IsStep step }
    ensures sum { result ≡ v +ℤ step }
    ensures world { IsInWorld result }
{
    v + step
}

// The place so far east and north of a group.
fn place_from(group: &Group, east: i64, north: i64) -> Pos
    requires placed { IsGroupPlace group.now }
    requires east { IsStep east }
    requires north { IsStep north }
    ensures { place_of result ≡ spot_from group.now east north }
{
    Pos {
        x: moved(group.x, east),
        y: moved(group.y, north),
    }
}

// A town of a group, so far east of it.
fn town(
    alloc: Global,
    group: &Group,
    letter: &str,
    east: i64,
    pop: &str,
) -> Result<Feature, AllocError>
    requires placed { IsGroupPlace group.now }
    requires east { IsStep east }
    requires pop { IsNumber pop.now }
    ensures { IfOk result (λ f. thing_of f ≡ town_thing group.now letter.now east pop.now) }
{
    let id = id_of(alloc, group, letter)?;
    let geometry = Some(Geometry::Point(place_from(group, east, 0)));
    let props = town_props(alloc, pop)?;
    Ok(Feature {
        id,
        geometry,
        props,
    })
}

/// The first town of a group, which is edited.
///
/// # Errors
/// Out of memory.
#[tactic(auto, using(crate::proofs::Props::digit))]
pub fn first_town(alloc: Global, group: &Group) -> Result<Feature, AllocError>
    requires { IsGroupPlace group.now }
    ensures { IfOk result (λ f. thing_of f ≡ first_thing group.now) }
{
    town(alloc, group, "a", 0, "3")
}

// The line of a group's river.
fn river_line(alloc: Global, group: &Group) -> Result<Seq<Pos>, AllocError>
    requires { IsGroupPlace group.now }
    ensures { IfOk result (λ line. mapped place_of line ≡ bends group.now) }
{
    let mut line = Seq::new(alloc);
    line.push(place_from(group, 0, 4_000_000))?;
    line.push(place_from(group, 1_000_000, 4_100_000))?;
    line.push(place_from(group, 2_000_000, 4_000_000))?;
    Ok(line)
}

// The river of a group.
fn river(alloc: Global, group: &Group) -> Result<Feature, AllocError>
    requires { IsGroupPlace group.now }
    ensures { IfOk result (λ f. thing_of f ≡ river_thing group.now) }
{
    let id = id_of(alloc, group, "r")?;
    let geometry = Some(Geometry::LineString(river_line(alloc, group)?));
    let props = name_props(alloc, "river")?;
    Ok(Feature {
        id,
        geometry,
        props,
    })
}

// The ring of a group's area.
fn area_ring(alloc: Global, group: &Group) -> Result<Seq<Pos>, AllocError>
    requires { IsGroupPlace group.now }
    ensures places { IfOk result (λ ring. mapped place_of ring ≡ corners group.now) }
    ensures ring { IfOk result IsRing }
{
    let mut ring = Seq::new(alloc);
    ring.push(place_from(group, 0, 7_000_000))?;
    ring.push(place_from(group, 1_000_000, 7_000_000))?;
    ring.push(place_from(group, 1_000_000, 8_000_000))?;
    ring.push(place_from(group, 0, 8_000_000))?;
    ring.push(place_from(group, 0, 7_000_000))?;
    Ok(ring)
}

// The area of a group.
fn area(alloc: Global, group: &Group) -> Result<Feature, AllocError>
    requires { IsGroupPlace group.now }
    ensures { IfOk result (λ f. thing_of f ≡ area_thing group.now) }
{
    let id = id_of(alloc, group, "p")?;
    let mut rings = Seq::new(alloc);
    rings.push(area_ring(alloc, group)?)?;
    let props = name_props(alloc, "area")?;
    Ok(Feature {
        id,
        geometry: Some(Geometry::Polygon(rings)),
        props,
    })
}

// Adds the features of a group.
#[tactic(auto, using(crate::proofs::Props::digit))]
fn push_things(alloc: Global, group: &Group, features: &mut Seq<Feature>) -> Result<(), AllocError>
    requires { IsGroupPlace group.now }
    ensures { OnOk result
        (mapped thing_of features.new ≡ mapped thing_of features.old ++ things_in group.now) }
{
    features.push(first_town(alloc, group)?)?;
    features.push(town(alloc, group, "b", 400, "2")?)?;
    features.push(town(alloc, group, "c", 800, "1")?)?;
    features.push(river(alloc, group)?)?;
    features.push(area(alloc, group)?)?;
    Ok(())
}

/// The features of groups, group by group.
///
/// # Errors
/// Out of memory.
pub fn things_of(alloc: Global, groups: &[Group]) -> Result<Seq<Feature>, AllocError>
    requires { All IsGroupPlace groups.now }
    ensures { IfOk result (λ features. mapped thing_of features ≡ flat_map things_in groups.now) }
{
    let mut features = Seq::new(alloc);
    for group in groups {
        push_things(alloc, group, &mut features)?;
    }
    Ok(features)
}
