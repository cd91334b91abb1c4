// The reader: from the sheet's bytes to tables in the lent work words.
#![tactic(auto)]

ghost use Rattle.std.specs.Prelude.{◌≡◌, ◌≤◌, ◌<◌, length, replicate};
ghost use Rattle.specification.specs.Sheet.{read_with};
ghost use Rattle.specification.specs.Moves.{read_only};
ghost use Rattle.tables.specs.Layout.{path_at};
ghost use Rattle.sheet.specs.Whole.{reading_of, words_of, Zeroed};

mod arrays;
mod ends;
mod formula;
mod given;
mod lines;
mod procedures;
mod ranges;
mod reader;
mod sorts;
mod stack;
mod words;

use specification::Refusal;
use text::Class;

// A token: its code and operand (a constant's word, or the number of a scalar, local, array, parameter or procedure).
#[derive(Clone, Copy)]
pub struct Token {
    pub code: u32,
    pub operand: u32,
}

// A sheet as it was read: how many scalars, arrays and tokens there are, and the formula's first token.
#[derive(Clone, Copy)]
pub struct Reading {
    pub scalars: u32,
    pub arrays: u32,
    pub tokens: u32,
    pub formula: u32,
}

// Where the words have what is due while formulas are read, and its end.
const DUES: usize = tables::DUES;

const DUES_END: usize = tables::DUES_END;

// Words from one place up to another are 0.
fn zero(w: &mut [u32], from: usize, to: usize)
    requires { (from ≤ to) × (to ≤ length w.old) }
    ensures { Zeroed w.old w.new from to }
{
    w[from..to].fill(0);
}

// Every word is 0.
pub fn clear(w: &mut [u32])
    ensures { w.new ≡ replicate (length w.old) 0 }
{
    w.fill(0);
}

// Reads a sheet: its tables stand in the work words, and nothing else; where it is refused they are all 0. Only strict reading refuses empty
// ranges.
pub fn read_sheet(s: &[u8], strict: bool, w: &mut [u32]) -> Result<Reading, Refusal>
    requires { path_at ≤ length w.old }
    ensures { (result ≡ reading_of (read_with strict s.now))
        × (w.new ≡ words_of (length w.old) (read_with strict s.now)) }
{
    clear(w);
    match reader::all_lines(s, strict, w) {
        Err(refusal) => {
            clear(w);
            Err(refusal)
        }
        Ok(read) => {
            zero(w, DUES, DUES_END);
            Ok(Reading {
                scalars: read.limits.scalars,
                arrays: read.limits.arrays,
                tokens: read.reached.tokens,
                formula: read.reached.first,
            })
        }
    }
}

// The same, where only this edition is read: another is refused at the edition.
pub fn read_only(s: &[u8], edition: u32, strict: bool, w: &mut [u32]) -> Result<Reading, Refusal>
    requires { (edition < 4294967295) × (path_at ≤ length w.old) }
    ensures { (result ≡ reading_of (read_only strict edition s.now))
        × (w.new ≡ words_of (length w.old) (read_only strict edition s.now)) }
{
    match lines::count_line(s, 0, b"edition=", edition, edition, Class::Feed) {
        Err(refusal) => {
            clear(w);
            Err(refusal)
        }
        Ok(_) => read_sheet(s, strict, w),
    }
}
