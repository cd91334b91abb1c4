// The line of given values: items with commas between, in strictly rising cell order. Each goes into the work words as it is read.
ghost use Rattle.std.specs.Prelude.{◌≡◌, ◌+◌, ◌<◌, ◌≤◌, length, set};
ghost use Rattle.specification.specs.Lines.{Declared};
ghost use Rattle.specification.specs.Given.{scalar_name, element_name, name, item, items};
ghost use Rattle.tables.specs.Layout.{max_arrays, max_cells, cell_slot, path_at};
ghost use Rattle.sheet.specs.Reader.{line_at};
ghost use Rattle.sheet.specs.Items.{held_names, name_read, scalar_in, element_in, Below, after_name, entry_read, Arranged, Vacant, Furnished, laid_items, given_read, given_value, GivenDone};

use crate::formula::Limits;
use crate::lines;
use specification::{Reason, Refusal};
use text::Class;

// A cell's name; an index is held at 2^32 - 1. (The listing's names are of cells that are declared.)
#[derive(Clone, Copy)]
enum Name {
    Scalar(u32),
    Element(u32, u32),
}

// An item: its cell and its value's word.
#[derive(Clone, Copy)]
struct Entry {
    cell: u32,
    word: u32,
}

// ---- names

fn scalar_name(s: &[u8], at: usize) -> Result<(Name, usize), Refusal>
    ensures { name_read s.now result ≡ held_names (scalar_name (line_at s.now at)) }
{
    let from = lines::exactly(s, at, b"v", Reason::Byte)?;
    let (n, e) = lines::index_at(s, from)?;
    Ok((Name::Scalar(n), e))
}

fn element_name(s: &[u8], at: usize) -> Result<(Name, usize), Refusal>
    ensures { name_read s.now result ≡ held_names (element_name (line_at s.now at)) }
{
    let from = lines::exactly(s, at, b"a", Reason::Byte)?;
    let (a, point) = lines::index_at(s, from)?;
    let element = lines::mark(s, point, Class::Point)?;
    let (i, e) = lines::index_at(s, element)?;
    Ok((Name::Element(a, i), e))
}

fn name_at(s: &[u8], at: usize) -> Result<(Name, usize), Refusal>
    ensures { name_read s.now result ≡ held_names (name (line_at s.now at)) }
{
    if text::begins(s, at, b"v") {
        scalar_name(s, at)
    } else {
        element_name(s, at)
    }
}

// ---- cells: none where a name is not declared

fn scalar_cell(n: u32, scalars: u32) -> Option<u32>
    ensures { result ≡ scalar_in scalars n }
{
    if n < scalars { Some(n) } else { None }
}

// An element's cell lies before the next array's first.
fn element_cell(a: u32, i: u32, arrays: u32, w: &[u32]) -> Option<u32>
    requires { (arrays ≤ max_arrays) × (path_at ≤ length w.now) }
    ensures { result ≡ element_in arrays w.now a i }
{
    if arrays <= a {
        return None;
    }
    let first = tables::first_cell(w, a);
    let end = tables::first_cell(w, a + 1);
    let length = end.saturating_sub(first);
    if i < length { Some(first + i) } else { None }
}

// ---- items

// An item whose name begins at one place and ends at another: its form is tested first, then its cell, the order, and its value.
fn valued(
    s: &[u8],
    at: usize,
    e: usize,
    floor: u32,
    c: Option<u32>,
    w: &[u32],
) -> Result<(Entry, usize), Refusal>
    requires { (Below c) × (path_at ≤ length w.now) }
    ensures { entry_read s.now result ≡ after_name at floor w.now c (line_at s.now e) }
{
    let from = lines::mark(s, e, Class::Colon)?;
    let (word, q) = lines::integer_at(s, from)?;
    let Some(cell) = c else {
        return Err(Refusal::new(Reason::Undeclared, at));
    };
    if cell < floor {
        return Err(Refusal::new(Reason::NotRising, at));
    }
    let mark = tables::ranges::mark(w, cell);
    if !tables::ranges::allows(w, mark, word) {
        return Err(Refusal::new(Reason::OutOfRange, at));
    }
    Ok((Entry { cell, word }, q))
}

fn item_at(s: &[u8], at: usize, d: Limits, floor: u32, w: &[u32]) -> Result<(Entry, usize), Refusal>
    requires { (Arranged d.scalars d.arrays w.now) × (path_at ≤ length w.now) }
    ensures { (D : Declared) → Vacant D d.scalars d.arrays floor w.now
        → entry_read s.now result ≡ item D floor (line_at s.now at) }
{
    let (name, e) = name_at(s, at)?;
    match name {
        Name::Scalar(n) => valued(s, at, e, floor, scalar_cell(n, d.scalars), w),
        Name::Element(a, i) => valued(s, at, e, floor, element_cell(a, i, d.arrays, w), w),
    }
}

// Marks a cell, and puts its value's word beside the mark.
fn put(w: &mut [u32], cell: u32, word: u32)
    requires { (cell < max_cells) × (path_at ≤ length w.old) }
    ensures { w.new ≡ set (set w.old (cell_slot cell) 1) (cell_slot cell + 1) word }
{
    tables::set_slot(
        w,
        tables::CELLS + tables::SLOT_WORDS * cell as usize,
        1,
        word,
    );
}

// ---- the line

// Items from a place on. Each has a cell above that of the one before, so they come to an end.
fn items_at(s: &[u8], from: usize, d: Limits, w: &mut [u32]) -> Result<usize, Refusal>
    requires { (Furnished d.scalars d.arrays w.old) × (path_at ≤ length w.old) }
    ensures { (D : Declared) → Vacant D d.scalars d.arrays 0 w.old
        → given_read s.now result w.new ≡ laid_items w.old (items D max_cells 0 (line_at s.now from)) }
{
    let mut at = from;
    let mut floor: u32 = 0;
    // A `loop`: a comma says whether one more comes.
    loop {
        let (item, e) = item_at(s, at, d, floor, w)?;
        put(w, item.cell, item.word);
        if !lines::sees(s, e, Class::Comma) {
            return Ok(e);
        }
        at = e + 1;
        floor = item.cell + 1;
    }
}

// The line's value: empty, or items.
fn contents(s: &[u8], from: usize, d: Limits, w: &mut [u32]) -> Result<usize, Refusal>
    requires { (Furnished d.scalars d.arrays w.old) × (path_at ≤ length w.old) }
    ensures { (D : Declared) → Vacant D d.scalars d.arrays 0 w.old
        → given_read s.now result w.new ≡ laid_items w.old (given_value D (line_at s.now from)) }
{
    if lines::sees(s, from, Class::Feed) {
        return Ok(from);
    }
    items_at(s, from, d, w)
}

// The line of given values, where the words have the arrays of a sheet.
pub(crate) fn given_line(s: &[u8], at: usize, d: Limits, w: &mut [u32]) -> Result<usize, Refusal>
    requires { (Furnished d.scalars d.arrays w.old) × (path_at ≤ length w.old) }
    ensures { (D : Declared) → Vacant D d.scalars d.arrays 0 w.old
        → GivenDone D s.now at w.old w.new result }
{
    let from = lines::key(s, at, b"given=")?;
    let e = contents(s, from, d, w)?;
    lines::mark(s, e, Class::Feed)
}
