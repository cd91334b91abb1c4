// A sheet's bytes moved to another edition, or tidied in their own: the sheet was read before, so its lines are as they should be, and the
// table of its tokens stands in the work words.
#![tactic(auto)]

ghost use Rattle.std.specs.Prelude.{◌≡◌, ◌++◌, suc, ◌≤◌, length};
ghost use Rattle.specification.specs.Bytes.{bytes};
ghost use Rattle.specification.specs.Moves.{unless, fitted};
ghost use Rattle.tables.specs.Layout.{path_at};
ghost use Rattle.listing.specs.Put.{Room, Put, Writes};
ghost use Rattle.mover.specs.Model.{lines_length, head_lines, head_rest, rest_text, up_text, tidy_text, down_text};
ghost use Rattle.mover.specs.Model.{down_result, rounding_of};
ghost use Rattle.mover.specs.Steps.{Movable, moved_text, moved_result, Done};

use listing::Writer;
use specification::{Reason, Refusal};

mod lines;
mod ranges;
mod words;

// From edition 2 to edition 3 with full ranges, within edition 3, and from edition 3 to edition 2; to edition 3 without empty ranges.
#[derive(Clone, Copy)]
pub enum Way {
    Up,
    Tidy,
    Down,
}

// The bytes of the longest sheet.
const LONGEST: usize = 4096;

// The bytes of the edition's line, and the lines before that of ranges.
const EDITION: usize = 10;

const HEAD: usize = 4;

// ---- parts of the text

// The lines before that of ranges, with another line of the edition.
fn head(out: &mut Writer, s: &[u8], edition: &[u8])
    requires { (length (bytes "edition=2\n") ≤ lines_length head_lines s.now) × Room out.old.at (edition.now ++ head_rest s.now) }
    ensures { Writes out.old out.new (edition.now ++ head_rest s.now) }
{
    let h = lines::lines_end(s, HEAD);
    out.text(edition);
    out.text(&s[EDITION..h]);
}

// What stands after so many lines: the line of given values, and those of formulas.
fn rest(out: &mut Writer, s: &[u8], lines: usize, w: &[u32], newer: bool)
    requires { (length s.now ≤ 4096) × (path_at ≤ length w.now) × (lines ≤ suc head_lines)
        × Room out.old.at (rest_text w.now newer lines s.now) }
    ensures { Writes out.old out.new (rest_text w.now newer lines s.now) }
{
    let k = lines::lines_end(s, lines);
    let e = lines::lines_end(s, lines + 1);
    out.text(&s[k..e]);
    words::rewrite(out, s, e, w, newer);
}

// ---- the text of each way

fn up_text(out: &mut Writer, s: &[u8], ranges: u32, w: &[u32])
    requires { Movable s.now w.now × Room out.old.at (up_text ranges w.now s.now) }
    ensures { Writes out.old out.new (up_text ranges w.now s.now) }
{
    head(out, s, b"edition=3\n");
    ranges::full_line(out, ranges);
    rest(out, s, HEAD, w, true);
}

fn tidy_text(out: &mut Writer, s: &[u8], w: &[u32])
    requires { Movable s.now w.now × Room out.old.at (tidy_text w.now s.now) }
    ensures { Writes out.old out.new (tidy_text w.now s.now) }
{
    let k = lines::lines_end(s, HEAD + 1);
    out.text(&s[..k]);
    rest(out, s, HEAD + 1, w, true);
}

fn down_text(out: &mut Writer, s: &[u8], w: &[u32])
    requires { Movable s.now w.now × Room out.old.at (down_text w.now s.now) }
    ensures { Writes out.old out.new (down_text w.now s.now) }
{
    head(out, s, b"edition=2\n");
    rest(out, s, HEAD + 1, w, false);
}

// At the start of the memory, or as much as there is room for. Gives its length.
fn moved_text(way: Way, s: &[u8], ranges: u32, w: &[u32], memory: &mut [u8]) -> usize
    requires { Movable s.now w.now × (ranges ≤ 80) }
    ensures { Put memory.old memory.new 0 (moved_text way ranges w.now s.now) result }
{
    let mut out = Writer::new(memory);
    match way {
        Way::Up => up_text(&mut out, s, ranges, w),
        Way::Tidy => tidy_text(&mut out, s, w),
        Way::Down => down_text(&mut out, s, w),
    }
    out.at
}

// ---- moves

// The length of the text, by writing it into no memory.
fn size(way: Way, s: &[u8], ranges: u32, w: &[u32]) -> usize
    requires { Movable s.now w.now × (ranges ≤ 80) }
    ensures { result ≡ length (moved_text way ranges w.now s.now) }
{
    let mut none = [0u8; 0];
    moved_text(way, s, ranges, w, &mut none)
}

// The text, where it is no longer than any sheet.
fn fit(way: Way, s: &[u8], ranges: u32, w: &[u32], out: &mut [u8]) -> Result<usize, Refusal>
    requires { Movable s.now w.now × (ranges ≤ 80) × (4096 ≤ length out.old) }
    ensures { Done (fitted (moved_text way ranges w.now s.now)) result out.old out.new }
{
    let n = size(way, s, ranges, w);
    if LONGEST < n {
        return Err(Refusal::new(Reason::TooLong, LONGEST));
    }
    moved_text(way, s, ranges, w, out);
    Ok(n)
}

// Where every range is full.
fn down_full(s: &[u8], w: &[u32], out: &mut [u8]) -> Result<usize, Refusal>
    requires { Movable s.now w.now × (4096 ≤ length out.old) }
    ensures { Done (unless 16 (rounding_of s.now) (fitted (down_text w.now s.now)))
        result out.old out.new }
{
    match words::rounding(s, lines::lines_end(s, HEAD + 1)) {
        Some(place) => Err(Refusal::new(Reason::Rounding, place)),
        None => fit(Way::Down, s, 0, w, out),
    }
}

// From edition 3 to edition 2, where there are so many ranges.
fn down(s: &[u8], ranges: u32, w: &[u32], out: &mut [u8]) -> Result<usize, Refusal>
    requires { Movable s.now w.now × (ranges ≤ 80) × (4096 ≤ length out.old) }
    ensures { Done (down_result ranges w.now s.now) result out.old out.new }
{
    match ranges::narrow(s, lines::lines_end(s, HEAD) + ranges::KEY, ranges) {
        Some(place) => Err(Refusal::new(Reason::NarrowRange, place)),
        None => down_full(s, w, out),
    }
}

// A sheet on its way, where edition 3 has so many ranges.
pub fn moved(way: Way, s: &[u8], ranges: u32, w: &[u32], out: &mut [u8]) -> Result<usize, Refusal>
    requires { Movable s.now w.now × (ranges ≤ 80) × (4096 ≤ length out.old) }
    ensures { Done (moved_result way ranges w.now s.now) result out.old out.new }
{
    match way {
        Way::Up => fit(Way::Up, s, ranges, w, out),
        Way::Tidy => fit(Way::Tidy, s, ranges, w, out),
        Way::Down => down(s, ranges, w, out),
    }
}
