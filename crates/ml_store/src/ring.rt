//! Numbers in cells, whose blocks are rings: one moves, and those between close up behind it.
ghost use Rattle.std.specs.Prelude.{ℕ, ◌≡◌, ◌+◌, ◌*◌, ◌/◌, ◌<◌, ◌≤◌, length, slice_index, slice_set};
ghost use Rattle.ml_ratio.specs.Limits.{most_labels};
ghost use Rattle.ml_store.specs.Tiers.{AreTiers, cell_at, order_of, shifted};

/// How many cells a block has.
pub const BLOCK: usize = 128;

/// The cell of a place.
pub fn cell_at(heads: &[u8], k: usize) -> usize
    requires heads { length heads.now ≡ 256 }
    requires place { k < most_labels }
    ensures cell { result ≡ cell_at heads.now k }
    ensures within { result < most_labels }
{
    k / BLOCK * BLOCK + (k % BLOCK + heads[k / BLOCK] as usize) % BLOCK
}

/// The place of a cell.
pub fn place_at(heads: &[u8], cell: usize) -> usize
    requires heads { length heads.now ≡ 256 }
    requires turns { (b : ℕ) → b < 256 → slice_index heads.now b < 128 }
    requires cell { cell < most_labels }
    ensures cell { cell_at heads.now result ≡ cell }
    ensures within { result < most_labels }
{
    cell / BLOCK * BLOCK + (cell % BLOCK + BLOCK - heads[cell / BLOCK] as usize) % BLOCK
}

// The number comes to stand in the cell, and is told so.
fn put(cells: &mut [u16], cell_of: &mut [u16], number: u16, cell: usize)
    requires all_cells { length cells.old ≡ most_labels }
    requires all_numbers { length cell_of.old ≡ most_labels }
    requires number { number < most_labels }
    requires cell { cell < most_labels }
    ensures cells { cells.new ≡ slice_set cells.old cell number }
    ensures cell_of { cell_of.new ≡ slice_set cell_of.old number cell }
{
    cells[cell] = number;
    cell_of[number as usize] = cell as u16;
}

/// The number at `from` moves back to `to` in its block. It is taken out and leaves a hole, which each number before
/// it fills in turn, and is put in at last.
pub fn carry_back(cells: &mut [u16], cell_of: &mut [u16], heads: &[u8], from: usize, to: usize)
    requires tiers { AreTiers cells.old cell_of.old heads.now }
    requires from_place { from < most_labels }
    requires to_place { to ≤ from }
    requires block { to / 128 ≡ from / 128 }
    ensures tiers { AreTiers cells.new cell_of.new heads.now }
    ensures order { order_of heads.now cells.new ≡
        shifted (order_of heads.now cells.old) from to }
{
    let mut hole = cell_at(heads, from);
    let number = cells[hole];
    for _ in 0..from - to {
        let next = hole / BLOCK * BLOCK + (hole + BLOCK - 1) % BLOCK;
        let mate = cells[next];
        put(cells, cell_of, mate, hole);
        hole = next;
    }
    put(cells, cell_of, number, hole);
}

/// The number at `from` moves on to `to` in its block, as those behind it fill the hole in turn.
pub fn carry_on(cells: &mut [u16], cell_of: &mut [u16], heads: &[u8], from: usize, to: usize)
    requires tiers { AreTiers cells.old cell_of.old heads.now }
    requires from_place { from ≤ to }
    requires to_place { to < most_labels }
    requires block { to / 128 ≡ from / 128 }
    ensures tiers { AreTiers cells.new cell_of.new heads.now }
    ensures order { order_of heads.now cells.new ≡
        shifted (order_of heads.now cells.old) from to }
{
    let mut hole = cell_at(heads, from);
    let number = cells[hole];
    for _ in from..to {
        let next = hole / BLOCK * BLOCK + (hole + 1) % BLOCK;
        let mate = cells[next];
        put(cells, cell_of, mate, hole);
        hole = next;
    }
    put(cells, cell_of, number, hole);
}

/// The first number of block `from` comes to stand first in block `to`. Of each block on the way the last number fills
/// the hole, and the ring is turned so that its cell, the next hole, comes first.
pub fn pass_back(cells: &mut [u16], cell_of: &mut [u16], heads: &mut [u8], from: usize, to: usize)
    requires tiers { AreTiers cells.old cell_of.old heads.old }
    requires from_block { from < 256 }
    requires to_block { to ≤ from }
    ensures tiers { AreTiers cells.new cell_of.new heads.new }
    ensures order { order_of heads.new cells.new ≡
        shifted (order_of heads.old cells.old) (128 * from) (128 * to) }
{
    let mut hole = from * BLOCK + heads[from] as usize;
    let number = cells[hole];
    for passed in 0..from - to {
        let block = from - passed - 1;
        let head = (heads[block] as usize + BLOCK - 1) % BLOCK;
        let last = block * BLOCK + head;
        let mate = cells[last];
        put(cells, cell_of, mate, hole);
        heads[block] = head as u8;
        hole = last;
    }
    put(cells, cell_of, number, hole);
}

/// The last number of block `from` comes to stand last in block `to`, as the first of each block on the way fills the
/// hole.
pub fn pass_on(cells: &mut [u16], cell_of: &mut [u16], heads: &mut [u8], from: usize, to: usize)
    requires tiers { AreTiers cells.old cell_of.old heads.old }
    requires from_block { from ≤ to }
    requires to_block { to < 256 }
    ensures tiers { AreTiers cells.new cell_of.new heads.new }
    ensures order { order_of heads.new cells.new ≡
        shifted (order_of heads.old cells.old) (128 * from + 127) (128 * to + 127) }
{
    let mut hole = from * BLOCK + (heads[from] as usize + BLOCK - 1) % BLOCK;
    let number = cells[hole];
    for before in from..to {
        let block = before + 1;
        let head = heads[block] as usize;
        let first = block * BLOCK + head;
        let mate = cells[first];
        put(cells, cell_of, mate, hole);
        heads[block] = ((head + 1) % BLOCK) as u8;
        hole = first;
    }
    put(cells, cell_of, number, hole);
}
