//! Labels in strips from west to east, each from south to north, to find those that may bound one.
ghost use Rattle.std.specs.Prelude.{ℕ, ◌≡◌, ◌≢◌, ◌+◌, ◌≤◌, ◌<◌, ◌≤ℤ◌, ◌<ℤ◌, List, [], All, AllPairs, length, slice_index_or, IfOk, OnOk, IsTrue};
ghost use Rattle.ml_cone.specs.declared.label.Label.{Label as ALabel};
ghost use Rattle.ml_conflict.specs.Area.{IsInArea};
ghost use Rattle.ml_conflict.specs.declared.area.Area.{Area as AnArea};
ghost use Rattle.std.specs.List.{AllWithin};
ghost use Rattle.ml_conflict.specs.Field.{IsSpotOf, HasSpot};
ghost use Rattle.ml_conflict.specs.Strip.{IsStripOf, AreStrips, AreBlocks, HasPlace};

use crate::area::{Area, Side};
use crate::corner::Corner;
use crate::spot::Spot;
use ml_cone::Label;
use ml_ratio::Ratio;
use std::alloc::{AllocError, Global};

// How many labels a strip is made for at least.
const LEAST_WIDTH: usize = 16;

// How many strips that stand beside one another have one area together, to pass over them at once.
const BLOCK: usize = 8;

/// Labels of a list that lie in a strip of the world: their spots from south to north, and the area that holds
/// them.
#[derive(Drop)]
pub struct Strip {
    pub spots: Vec<Spot>,
    pub area: Area,
    corner: Corner,
}

impl Strip {
    // A strip that begins at the corner, with no label.
    fn at(alloc: Global, corner: Corner) -> Strip
        ensures { result.spots.items ≡ [] }
    {
        Strip {
            spots: Vec::new(alloc),
            area: Area {
                across: Side::at(corner.x),
                along: Side::at(corner.y),
            },
            corner,
        }
    }

    // Puts the label of the spot into the strip.
    fn put(&mut self, labels: &[Label], spot: Spot) -> Result<(), AllocError>
        requires strip { IsStripOf labels.now self.old.spots.items self.old.area }
        requires spot { IsSpotOf labels.now spot }
        ensures strip { OnOk result (IsStripOf labels.now self.new.spots.items self.new.area) }
        ensures kept { OnOk result
            ((j : ℕ) → HasSpot self.old.spots.items j → HasSpot self.new.spots.items j) }
        ensures here { OnOk result (HasSpot self.new.spots.items spot.place) }
    {
        let at = south_of(self.spots.as_slice(), spot.y);
        let own = Area::of(&labels[spot.place as usize]);
        self.area = self.area.with(&own);
        self.spots.insert(at, spot)?;
        Ok(())
    }
}

/// How many of the spots, which go from south to north, lie to the south of the coordinate.
pub fn south_of(spots: &[Spot], y: i64) -> usize
    requires rising { AllPairs (λ a b. a.y ≤ℤ b.y) spots.now }
    ensures within { result ≤ length spots.now }
    ensures south { AllWithin (λ spot. spot.y <ℤ y) spots.now 0 result }
    ensures north { AllWithin (λ spot. y ≤ℤ spot.y) spots.now result (length spots.now) }
{
    spots.partition_point(|spot| spot.y < y)
}

/// Strips that hold labels of a list, from west to east, and the areas of blocks of strips.
#[derive(Drop)]
pub struct Field {
    pub strips: Vec<Strip>,
    pub blocks: Vec<Area>,
}

impl Field {
    ghost use Rattle.ml_ratio.specs.Fraction.{value_of};
    ghost use Rattle.std.specs.Prelude.{List, ℕ};
    ghost use Rattle.ml_cone.specs.declared.label.Label.{Label as ALabel};
    ghost use Rattle.ml_conflict.specs.Strip.{AreAway};

    /// Strips for all labels of the list. They hold none yet.
    ///
    /// # Errors
    /// Out of memory.
    pub fn of(alloc: Global, labels: &[Label]) -> Result<Field, AllocError>
        ensures good { IfOk result (λ field. AreStrips labels.now field.strips.items) }
        ensures some { IfOk result
            (λ field. 0 < length labels.now → 0 < length field.strips.items) }
        ensures blocks { IfOk result (λ field. AreBlocks field.strips.items field.blocks.items) }
    {
        let mut corners = Vec::with_capacity(alloc, labels.len())?;
        for label in labels {
            corners.push(Corner::of(label))?;
        }
        corners.sort_unstable_by_key(|corner| (corner.x, corner.y));
        let strips = strips_from(alloc, corners.as_slice())?;
        let blocks = blocks_of(alloc, strips.as_slice())?;
        Ok(Field { strips, blocks })
    }

    /// The place of the strip in which the label lies, if it is in one.
    pub fn home(&self, label: &Label) -> usize
        requires { 0 < length self.now.strips.items }
        ensures { result < length self.now.strips.items }
    {
        let corner = Corner::of(label);
        let past = self
            .strips
            .partition_point(|strip| corner.is_from(&strip.corner));
        past.saturating_sub(1)
    }

    /// Puts the label of the spot into the strip in which it lies.
    ///
    /// # Errors
    /// Out of memory.
    pub fn put(&mut self, labels: &[Label], spot: Spot) -> Result<(), AllocError>
        requires good { AreStrips labels.now self.old.strips.items }
        requires blocks { AreBlocks self.old.strips.items self.old.blocks.items }
        requires some { 0 < length self.old.strips.items }
        requires spot { IsSpotOf labels.now spot }
        ensures good { OnOk result (AreStrips labels.now self.new.strips.items) }
        ensures blocks { OnOk result (AreBlocks self.new.strips.items self.new.blocks.items) }
        ensures many { length self.new.strips.items ≡ length self.old.strips.items }
        ensures kept { OnOk result
            ((j : ℕ) → HasPlace self.old.strips.items j → HasPlace self.new.strips.items j) }
        ensures here { OnOk result (HasPlace self.new.strips.items spot.place) }
    {
        let home = self.home(&labels[spot.place as usize]);
        let strip = &mut self.strips[home];
        strip.put(labels, spot)?;
        let area = strip.area;
        widen(&mut self.blocks, home / BLOCK, &area);
        Ok(())
    }

    /// How far to the east the strips from `from` on may be passed over: no label in those before the result is near
    /// enough to set a label in the area a limit up to the bound.
    ///
    /// It goes by whole blocks, so it may end before a strip that could be passed over too. No clause says how far it
    /// goes: that matters for time alone.
    pub fn pass_east(&self, from: usize, area: &Area, bound: &Ratio) -> usize
        requires blocks { AreBlocks self.now.strips.items self.now.blocks.items }
        requires within { from ≤ length self.now.strips.items }
        ensures from { from ≤ result }
        ensures within { result ≤ length self.now.strips.items }
        ensures away { (labels : List ALabel) → AreStrips labels self.now.strips.items →
            AreAway labels self.now.strips.items from result area.now (value_of bound.now) }
    {
        let many = self.strips.len();
        let mut at = from;
        while at < many && self.is_away(at, area, bound) {
            at += BLOCK.min(many - at);
        }
        at
    }

    /// The same to the west: no label in the strips from the result on, until `until`, is near enough.
    pub fn pass_west(&self, until: usize, area: &Area, bound: &Ratio) -> usize
        requires blocks { AreBlocks self.now.strips.items self.now.blocks.items }
        requires within { until ≤ length self.now.strips.items }
        ensures until { result ≤ until }
        ensures away { (labels : List ALabel) → AreStrips labels self.now.strips.items →
            AreAway labels self.now.strips.items result until area.now (value_of bound.now) }
    {
        let mut at = until;
        while at >= BLOCK && self.is_away(at - BLOCK, area, bound) {
            at -= BLOCK;
        }
        at
    }

    // Whether a block begins at the strip, and all labels in it are too far away.
    fn is_away(&self, at: usize, area: &Area, bound: &Ratio) -> bool
        requires blocks { AreBlocks self.now.strips.items self.now.blocks.items }
        ensures { IsTrue result → (labels : List ALabel) → AreStrips labels self.now.strips.items →
            (until : ℕ) → until ≤ at + 8 → until ≤ length self.now.strips.items →
            AreAway labels self.now.strips.items at until area.now (value_of bound.now) }
    {
        let block = at / BLOCK;
        at % BLOCK == 0 && block < self.blocks.len() && area.is_away(&self.blocks[block], bound)
    }
}

// The block holds what lies in the area, too.
fn widen(blocks: &mut Vec<Area>, block: usize, area: &Area)
    ensures many { length blocks.new.items ≡ length blocks.old.items }
    ensures others { (b : ℕ) (e : AnArea) → b ≢ block →
        slice_index_or blocks.new.items b e ≡ slice_index_or blocks.old.items b e }
    ensures kept { (e : AnArea) (a : ALabel) →
        IsInArea a (slice_index_or blocks.old.items block e) →
        IsInArea a (slice_index_or blocks.new.items block e) }
    ensures here { block < length blocks.old.items → (e : AnArea) (a : ALabel) →
        IsInArea a area.now → IsInArea a (slice_index_or blocks.new.items block e) }
{
    if block < blocks.len() {
        blocks[block] = blocks[block].with(area);
    }
}

// The areas of blocks of strips that hold no label yet: each the area of its first strip.
fn blocks_of(alloc: Global, strips: &[Strip]) -> Result<Vec<Area>, AllocError> {
    let mut blocks = Vec::new(alloc);
    for i in 0..strips.len() {
        if i % BLOCK == 0 {
            blocks.push(strips[i].area)?;
        }
    }
    Ok(blocks)
}

// Strips that begin at some of the corners, the first of them among these, as many as each is made for.
fn strips_from(alloc: Global, corners: &[Corner]) -> Result<Vec<Strip>, AllocError>
    ensures empty { IfOk result (λ strips. All (λ strip. strip.spots.items ≡ []) strips.items) }
    ensures some { IfOk result (λ strips. 0 < length corners.now → 0 < length strips.items) }
{
    let width = corners.len().isqrt().max(LEAST_WIDTH);
    let mut strips = Vec::new(alloc);
    for i in 0..corners.len() {
        if i % width == 0 {
            strips.push(Strip::at(alloc, corners[i]))?;
        }
    }
    Ok(strips)
}
