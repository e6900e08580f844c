//! Positions, lines and rings as lists of JSON numbers. The first fault from left to right decides.
ghost use Rattle.std.specs.Prelude.{◌≡◌, ◌<◌, ◌++◌, ◌∷◌, [], length, IfOk, OnOk, Ok};
ghost use Rattle.std.specs.Option.{option_map, option_copied};
ghost use Rattle.ml_ratio.specs.Geometry.{IsRing, IsClosed};
ghost use Rattle.ml_json.specs.Decimal.{e7_of};
ghost use Rattle.ml_json.specs.Lent.{lent_of, lents_view};
ghost use Rattle.ml_geojson.specs.Fault.{Answers};
ghost use Rattle.ml_geojson.specs.Shape.{place_of, places_of};
ghost use Rattle.ml_geojson.specs.Positions.{in_world, number as spec_number, numbers, position as spec_position, in_list, positions as spec_positions, ring as spec_ring, closed, filled};

use crate::fault::GeoFault;
use ml_json::{Lent, LentText, coordinate};
use ml_ratio::{Pos, Seq};
use std::alloc::{AllocError, Global};

// The text of a number.
fn number<'b, 'a>(value: &'b Lent<'a>) -> Option<&'b LentText<'a>>
    ensures { option_copied result ≡ spec_number (lent_of value.now) }
{
    match value {
        Lent::Num(text) => Some(text),
        _ => None,
    }
}

// The position with this longitude and latitude.
fn place(x: &LentText, y: &LentText, k: usize) -> Result<Pos, GeoFault>
    ensures { Answers place_of result (in_world k (e7_of x.now) (e7_of y.now)) }
{
    match (coordinate(x.as_str()), coordinate(y.as_str())) {
        (Some(x), Some(y)) => Ok(Pos { x, y }),
        _ => Err(GeoFault::OutOfRange(k)),
    }
}

// The position of two numbers.
fn place_of(x: Option<&LentText>, y: Option<&LentText>, k: usize) -> Result<Pos, GeoFault>
    ensures { Answers place_of result (numbers k (option_copied x.entry) (option_copied y.entry)) }
{
    match (x, y) {
        (Some(x), Some(y)) => place(x, y, k),
        _ => Err(GeoFault::BadGeometry(k)),
    }
}

/// A position: its first two items are numbers, longitude and latitude. Others are passed over.
pub fn read_position(items: &[Lent], k: usize) -> Result<Pos, GeoFault>
    ensures { Answers place_of result (spec_position k (lents_view items.now)) }
{
    match items {
        [x, y, ..] => place_of(number(x), number(y), k),
        _ => Err(GeoFault::BadGeometry(k)),
    }
}

// A position within a list of them.
fn position_in(item: &Lent, k: usize) -> Result<Pos, GeoFault>
    ensures { Answers place_of result (in_list k (spec_position k) (lent_of item.now)) }
{
    match item {
        Lent::List(items) => read_position(items.as_slice(), k),
        _ => Err(GeoFault::BadGeometry(k)),
    }
}

/// A list of positions.
pub fn read_positions(alloc: Global, items: &[Lent], k: usize) -> Result<Seq<Pos>, GeoFault>
    ensures { Answers places_of result (spec_positions k (lents_view items.now)) }
{
    let mut positions = Seq::new(alloc);
    for item in items {
        match position_in(item, k) {
            Ok(position) => positions.push(position)?,
            Err(fault) => return Err(fault),
        }
    }
    Ok(positions)
}

// Adds the first position at the end, where the last one is another.
fn close(ring: &mut Seq<Pos>) -> Result<(), AllocError>
    ensures places { OnOk result (places_of ring.new ≡ closed (places_of ring.old)) }
    ensures closed { OnOk result (IsClosed ring.new) }
{
    let places = ring.as_slice();
    let (Some(first), Some(last)) = (places.first(), places.last()) else {
        return Ok(());
    };
    if first == last {
        return Ok(());
    }
    let start = *first;
    ring.push(start)?;
    Ok(())
}

/// A ring, closed where it is open; none of its positions is no fault.
pub fn read_ring(alloc: Global, items: &[Lent], k: usize) -> Result<Seq<Pos>, GeoFault>
    ensures places { Answers places_of result (spec_ring k (lents_view items.now)) }
    ensures ring { IfOk result (λ ring. 0 < length ring → IsRing ring) }
{
    match read_positions(alloc, items, k) {
        Ok(positions) => {
            let mut ring = positions;
            close(&mut ring)?;
            if 0 < ring.len() && ring.len() < 4 {
                return Err(GeoFault::ShortRing(k));
            }
            Ok(ring)
        }
        Err(fault) => Err(fault),
    }
}
