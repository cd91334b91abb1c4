// The ranges of cells, and marks: the mark of a place, the second word of its slot while it has no value, tells which values it may have
// (specs/Ranges.antt).
ghost use Rattle.std.specs.Prelude.{◌≡◌, ◌+◌, ◌<◌, ◌≤◌, length, set};
ghost use Rattle.tables.specs.Layout.{cell_slot, value_at, dues_at};
ghost use Rattle.tables.specs.Ranges.{range_slot, lowest_at, highest_at, inside, allows};

use crate::{
    CELLS, MAX_ARRAYS, MAX_SCALARS, SLOT_WORDS, VALUE, cell_value, entry, set_entry, set_two,
};

const MAX_RANGES: u32 = MAX_SCALARS + MAX_ARRAYS;

const RANGES: usize = 5233;

const RANGE_WORDS: usize = 2;

// Which word of a range is which.
const LOWEST: usize = 0;

const HIGHEST: usize = 1;

// The mark of a cell that may have every value. (Numbers, and no Option: marks are words of slots, and compared with the register `inner`.)
const UNRANGED: u32 = 0;

// That of a cell with the first range; the others follow.
pub const FIRST_MARK: u32 = UNRANGED + 1;

// The lowest mark of a local.
pub const LOCAL_MARK: u32 = FIRST_MARK + MAX_RANGES;

// The words of the lowest and the highest value of range k.
pub fn set_range(w: &mut [u32], k: u32, lowest: u32, highest: u32)
    requires { range_slot k + 1 < length w.old }
    ensures { w.new ≡ set (set w.old (range_slot k) lowest) (range_slot k + 1) highest }
{
    set_two(w, RANGES + RANGE_WORDS * (k as usize), lowest, highest);
}

fn lowest(w: &[u32], k: u32) -> u32
    requires { range_slot k + 1 < length w.now }
    ensures { result ≡ lowest_at w.now k }
{
    entry::<RANGES, RANGE_WORDS, LOWEST>(w, k)
}

fn highest(w: &[u32], k: u32) -> u32
    requires { range_slot k + 1 < length w.now }
    ensures { result ≡ highest_at w.now k }
{
    entry::<RANGES, RANGE_WORDS, HIGHEST>(w, k)
}

// The mark of cell c, which has no value.
pub fn mark(w: &[u32], c: u32) -> u32
    requires { cell_slot c + 1 < length w.now }
    ensures { result ≡ value_at w.now c }
{
    cell_value(w, c)
}

pub fn set_mark(w: &mut [u32], c: u32, mark: u32)
    requires { cell_slot c + 1 < length w.old }
    ensures { w.new ≡ set w.old (cell_slot c + 1) mark }
{
    set_entry::<CELLS, SLOT_WORDS, VALUE>(w, c, mark);
}

// Whether range k has the value of this word: words compare as their values do.
fn inside(w: &[u32], k: u32, value: u32) -> bool
    requires { range_slot k + 1 < length w.now }
    ensures { result ≡ inside w.now k value }
{
    (lowest(w, k)..=highest(w, k)).contains(&value)
}

// Whether a place with this mark may have the value of this word.
#[tactic(auto, unfolding(crate::specs::Ranges::allows))]
pub fn allows(w: &[u32], mark: u32, value: u32) -> bool
    requires { dues_at ≤ length w.now }
    ensures { result ≡ allows w.now mark value }
{
    mark == UNRANGED || LOCAL_MARK <= mark || inside(w, mark - FIRST_MARK, value)
}
