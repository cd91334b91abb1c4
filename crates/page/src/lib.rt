// What the box prints, in lent memory: the lines after a listing, and a sheet's whole page. To print it is left to the programs.
#![tactic(auto)]

ghost use Rattle.std.specs.Prelude.{◌≡◌, ◌≤◌};
ghost use Rattle.specification.specs.Printed.{end_line, tally_lines, refusal_lines, closing};
ghost use Rattle.vodlasim.specs.Lent.{lent};
ghost use Rattle.page.specs.Page.{written_of, end_most, closing_most, Lined, Closed, Paged};

use listing::Writer;
use specification::{End, Ran, Refusal, Setting, Tallies};

// The memory of the box: work words, 6,144 for tables and 12 for each of 512 path nodes; a sheet one byte longer than any that is
// accepted; the output; and the lines after the listing.
pub const WORDS: usize = 12288;

pub const INPUT: usize = 4097;

pub const OUTPUT: usize = 4096;

pub const CLOSING: usize = 82;

// The box's setting.
const PATH: u32 = 512;

const BUDGET: u32 = 1_000_000;

const SKIP: u32 = 0;

// How long a page's two parts are (lengths and no slices: the caller holds the memory): the listing in the output, and the lines after it.
#[derive(Clone, Copy)]
pub struct Page {
    pub listing: usize,
    pub closing: usize,
}

// ---- the lines after the listing (by a Writer: of a `write!` no clause says that it does not fail)

fn end_line(lines: &mut Writer, end: End)
    requires { lines.old.at ≡ 0 }
    ensures { Lined end_most lines.old lines.new (end_line end) }
{
    match end {
        End::Done => lines.text(b"end=done\n"),
        End::Spent => lines.text(b"end=spent\n"),
        End::Path => lines.text(b"end=path\n"),
        End::Output => lines.text(b"end=output\n"),
    }
}

fn tally_lines(lines: &mut Writer, t: Tallies)
    requires { lines.old.at ≤ end_most }
    ensures { Lined closing_most lines.old lines.new (tally_lines t) }
{
    lines.field(b"nodes=", t.nodes as u64);
    lines.field(b"answers=", t.answers as u64);
    lines.field(b"errors=", t.errors as u64);
    lines.field(b"fails=", t.fails as u64);
}

fn refusal_lines(lines: &mut Writer, refusal: Refusal)
    requires { lines.old.at ≡ 0 }
    ensures { Lined closing_most lines.old lines.new (refusal_lines refusal.number refusal.place) }
{
    let number = refusal.number();
    let place = refusal.place();
    lines.field(b"refused=", number as u64);
    lines.field(b"at=", place as u64);
}

fn closing_lines(lines: &mut Writer, outcome: Result<Ran, Refusal>)
    requires { lines.old.at ≡ 0 }
    ensures { Lined closing_most lines.old lines.new (closing outcome) }
{
    match outcome {
        Err(refusal) => refusal_lines(lines, refusal),
        Ok(ran) => {
            end_line(lines, ran.end);
            tally_lines(lines, ran.tallies);
        }
    }
}

// How the run ended and the four tallies, or the refusal, from the start of the memory. Gives their length.
pub fn closing(outcome: Result<Ran, Refusal>, lines: &mut [u8; CLOSING]) -> usize
    ensures { Closed outcome lines.old lines.new result }
{
    let mut written = Writer::new(lines);
    closing_lines(&mut written, outcome);
    written.at
}

// ---- the page

// The bytes written of the output.
pub fn written(outcome: Result<Ran, Refusal>) -> usize
    ensures { result ≡ written_of outcome }
{
    match outcome {
        Ok(ran) => ran.written,
        Err(_) => 0,
    }
}

// All that the box does between reading its input and printing: the sheet's page, by the length of its parts.
pub fn run_box(
    sheet: &[u8],
    work: &mut [u32; WORDS],
    output: &mut [u8; OUTPUT],
    lines: &mut [u8; CLOSING],
) -> Page
    ensures { Paged sheet.now work.new (lent output.old output.new) (lent lines.old lines.new) result }
{
    let setting = Setting {
        path: PATH,
        budget: BUDGET,
        skip: SKIP,
    };
    let outcome = vodlasim::run(sheet, setting, work, output);
    Page {
        listing: written(outcome),
        closing: closing(outcome, lines),
    }
}
