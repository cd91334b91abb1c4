// The line of arrays: lengths with commas between. Each array's first cell goes into the work words as its length is read.
ghost use Rattle.std.specs.Prelude.{◌≡◌, [], suc, ◌-◌, ◌≤◌, length};
ghost use Rattle.specification.specs.Lines.{lengths};
ghost use Rattle.tables.specs.Layout.{max_arrays, max_cells, max_scalars, path_at};
ghost use Rattle.sheet.specs.Reader.{line_at};
ghost use Rattle.sheet.specs.Answers.{mapped};
ghost use Rattle.sheet.specs.Firsts.{laid_on, tabled, arrays_value, arrays_read, ArraysDone};

use crate::lines;
use specification::{Reason, Refusal};
use text::Class;

// The arrays that were read: how many, and the end of the cells.
#[derive(Clone, Copy)]
pub(crate) struct Arrays {
    pub count: u32,
    pub end: u32,
}

// Puts the end of the cells behind the last array, and in the place of each array that is not declared.
fn fill(w: &mut [u32], from: u32, end: u32)
    requires { path_at ≤ length w.old }
    ensures { w.new ≡ laid_on (suc max_arrays - from) from end [] w.old }
{
    for a in from..=tables::MAX_ARRAYS {
        tables::set_first(w, a, end);
    }
}

// Lengths from a place on, the first of which begins after the scalars.
fn lengths(s: &[u8], from: usize, scalars: u32, w: &mut [u32]) -> Result<(Arrays, usize), Refusal>
    requires { (scalars ≤ max_cells) × (path_at ≤ length w.old) }
    ensures { arrays_read s.now result w.new
        ≡ mapped (tabled 0 scalars w.old) (lengths max_arrays (max_cells - scalars) (line_at s.now from)) }
{
    let mut at = from;
    let mut end = scalars;
    for n in 0..tables::MAX_ARRAYS {
        let (m, e) = lines::count_at(s, at, 1, tables::MAX_CELLS - end)?;
        tables::set_first(w, n, end);
        end += m;
        if !lines::sees(s, e, Class::Comma) {
            let count = n + 1;
            fill(w, count, end);
            return Ok((Arrays { count, end }, e));
        }
        at = e + 1;
    }
    Err(Refusal::new(Reason::Number, at))
}

// The line's value: empty, or lengths.
fn contents(s: &[u8], from: usize, scalars: u32, w: &mut [u32]) -> Result<(Arrays, usize), Refusal>
    requires { (scalars ≤ max_cells) × (path_at ≤ length w.old) }
    ensures { arrays_read s.now result w.new
        ≡ mapped (tabled 0 scalars w.old) (arrays_value scalars (line_at s.now from)) }
{
    if lines::sees(s, from, Class::Feed) {
        fill(w, 0, scalars);
        return Ok((
            Arrays {
                count: 0,
                end: scalars,
            },
            from,
        ));
    }
    lengths(s, from, scalars, w)
}

// The line of arrays, after so many scalars.
pub(crate) fn arrays_line(
    s: &[u8],
    at: usize,
    scalars: u32,
    w: &mut [u32],
) -> Result<(Arrays, usize), Refusal>
    requires { (scalars ≤ max_scalars) × (path_at ≤ length w.old) }
    ensures { ArraysDone s.now at scalars w.old w.new result }
{
    let from = lines::key(s, at, b"arrays=")?;
    let (arrays, e) = contents(s, from, scalars, w)?;
    Ok((arrays, lines::mark(s, e, Class::Feed)?))
}
