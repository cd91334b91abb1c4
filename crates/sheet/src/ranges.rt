// The line of ranges, from edition 3 on: `lo:hi` for each scalar and then each array, with commas between. Each range goes into the work words
// as it is read, and its mark into the slots of its cells.
ghost use Rattle.std.specs.Prelude.{◌≡◌, ◌+◌, ◌-◌, ◌<◌, ◌≤◌, length};
ghost use Rattle.specification.specs.Parser.{give};
ghost use Rattle.specification.specs.Lines.{Declared, range, ranges};
ghost use Rattle.tables.specs.Layout.{max_cells, max_scalars, max_arrays, path_at};
ghost use Rattle.sheet.specs.Reader.{line_at};
ghost use Rattle.sheet.specs.Tables.{laid_marks};
ghost use Rattle.sheet.specs.Items.{Declares, Arranged};
ghost use Rattle.sheet.specs.RangeLine.{range_read, led_range, first_in, end_in, laid_in, laid_by, ranges_read, RangesDone};

use crate::formula::Limits;
use crate::lines;
use specification::{Reason, Refusal};
use text::Class;

// A range: the words of its lowest and its highest value.
#[derive(Clone, Copy)]
struct Range {
    lo: u32,
    hi: u32,
}

// The first edition with ranges.
const FIRST_EDITION: u32 = 3;

// ---- one range

fn range_at(s: &[u8], at: usize) -> Result<(Range, usize), Refusal>
    ensures { range_read s.now result ≡ range (line_at s.now at) }
{
    let (lo, colon) = lines::integer_at(s, at)?;
    let from = lines::mark(s, colon, Class::Colon)?;
    let (hi, e) = lines::integer_at(s, from)?;
    if hi < lo {
        return Err(Refusal::new(Reason::EmptyRange, at));
    }
    Ok((Range { lo, hi }, e))
}

// Range k: all but the first come after a comma.
fn range_after(s: &[u8], at: usize, k: u32) -> Result<(Range, usize), Refusal>
    ensures { range_read s.now result ≡ led_range k (line_at s.now at) }
{
    if k == 0 {
        return range_at(s, at);
    }
    let from = lines::mark(s, at, Class::Comma)?;
    range_at(s, from)
}

// ---- its words

// The first cell of range k: a scalar, or the first element of an array.
fn first_of(w: &[u32], scalars: u32, k: u32) -> u32
    requires { (k < scalars + max_arrays) × (path_at ≤ length w.now) }
    ensures { result ≡ first_in scalars w.now k }
{
    if k < scalars {
        return k;
    }
    tables::first_cell(w, k - scalars)
}

// The cell after its last.
fn end_of(w: &[u32], scalars: u32, k: u32) -> u32
    requires { (k < scalars + max_arrays) × (path_at ≤ length w.now) }
    ensures { result ≡ end_in scalars w.now k }
{
    if k < scalars {
        return k + 1;
    }
    tables::first_cell(w, k - scalars + 1)
}

// Cells from one up to another have this mark.
fn mark_cells(w: &mut [u32], from: u32, end: u32, mark: u32)
    requires { (from ≤ end) × (end ≤ max_cells) × (path_at ≤ length w.old) }
    ensures { w.new ≡ laid_marks mark from (end - from) w.old }
{
    for c in from..end {
        tables::ranges::set_mark(w, c, mark);
    }
}

// The words of range k, and the marks of its cells.
fn lay(w: &mut [u32], scalars: u32, k: u32, lo: u32, hi: u32)
    requires { (k < scalars + max_arrays) × (scalars ≤ max_scalars) × (first_in scalars w.old k ≤ end_in scalars w.old k)
        × (end_in scalars w.old k ≤ max_cells) × (path_at ≤ length w.old) }
    ensures { w.new ≡ laid_in scalars k lo hi w.old }
{
    let from = first_of(w, scalars, k);
    let end = end_of(w, scalars, k);
    tables::ranges::set_range(w, k, lo, hi);
    mark_cells(w, from, end, tables::ranges::FIRST_MARK + k);
}

// ---- the line

// Ranges from a place on.
fn ranges_at(s: &[u8], from: usize, d: Limits, w: &mut [u32]) -> Result<usize, Refusal>
    requires { (Arranged d.scalars d.arrays w.old) × (d.scalars ≤ max_scalars) × (path_at ≤ length w.old) }
    ensures { (D : Declared) → Declares D d.scalars d.arrays w.old
        → ranges_read s.now result w.new ≡ laid_by D w.old (ranges (give tt) (d.scalars + d.arrays) (line_at s.now from)) }
{
    let mut at = from;
    for k in 0..d.scalars + d.arrays {
        let (range, e) = range_after(s, at, k)?;
        lay(w, d.scalars, k, range.lo, range.hi);
        at = e;
    }
    Ok(at)
}

// The line of ranges, where the words have the arrays of a sheet of this edition.
pub(crate) fn ranges_line(s: &[u8], at: usize, d: Limits, w: &mut [u32]) -> Result<usize, Refusal>
    requires { (Arranged d.scalars d.arrays w.old) × (d.scalars ≤ max_scalars) × (path_at ≤ length w.old) }
    ensures { RangesDone d.edition d.scalars d.arrays s.now at w.old w.new result }
{
    if d.edition < FIRST_EDITION {
        return Ok(at);
    }
    let from = lines::key(s, at, b"ranges=")?;
    let e = ranges_at(s, from, d, w)?;
    lines::mark(s, e, Class::Feed)
}
