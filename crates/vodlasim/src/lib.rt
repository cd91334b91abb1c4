// The public calls: a sheet is run, or moved to another edition, or tidied.
#![tactic(auto)]

ghost use Rattle.std.specs.Prelude.{◌≡◌, ◌&&◌, ◌+◌, ◌*◌, ◌<◌, leb, length};
ghost use Rattle.specification.specs.Bytes.{between};
ghost use Rattle.specification.specs.Outcome.{longest_path, words_for};
ghost use Rattle.specification.specs.Moves.{longest_sheet, words_to_move, admitted, move_up, move_down, tidy};
ghost use Rattle.sheet.specs.Whole.{reading_of, words_of};
ghost use Rattle.vodlasim.specs.Lent.{lent};
ghost use Rattle.vodlasim.specs.Answered.{Answered};
ghost use Rattle.vodlasim.specs.Moved.{Moved};
ghost use Rattle.vodlasim.specs.Ways.{edition_of, strict_on, way_of};

use mover::Way;
use sheet::{Reading, clear, read_only, read_sheet};
use specification::{Ran, Reason, Refusal, Setting};
use walker::Task;
use walker::machine::walk_tables;

// The longest path that a setting may allow.
const LONGEST_PATH: u32 = 32768;

// The bytes of the longest sheet.
const LONGEST_SHEET: usize = 4096;

// The editions that a sheet is moved between.
const OLDER: u32 = 2;

const NEWER: u32 = 3;

// ---- a run

// Whether the path limit and the number of work words are as document 01 wants them.
fn enough(path: u32, words: usize) -> bool
    ensures { result ≡ (between 1 longest_path path && leb (words_for path) words) }
{
    (1..=LONGEST_PATH).contains(&path)
        && tables::PATH + tables::NODE_WORDS * (path as usize) <= words
}

// Reads the sheet, walks its tree, writes the listing and leaves the work words all zero; every length of the slices is allowed. (Reading leaves
// the words of a refused sheet zero itself.)
pub fn run(
    sheet: &[u8],
    setting: Setting,
    work: &mut [u32],
    output: &mut [u8],
) -> Result<Ran, Refusal>
    ensures { Answered sheet.now setting (lent work.old work.new) (lent output.old output.new) result }
{
    if !enough(setting.path, work.len()) {
        clear(work);
        return Err(Refusal::new(Reason::Memory, 0));
    }
    if sheet.len() > LONGEST_SHEET {
        clear(work);
        return Err(Refusal::new(Reason::TooLong, LONGEST_SHEET));
    }
    let read = read_sheet(sheet, true, work)?;
    let task = Task {
        setting,
        scalars: read.scalars,
        arrays: read.arrays,
        formula: read.formula,
    };
    let ran = walk_tables(work, output, task);
    clear(work);
    Ok(ran)
}

// ---- a move

// The edition that is moved.
fn edition_of(way: Way) -> u32
    ensures { result ≡ edition_of way }
{
    match way {
        Way::Up => OLDER,
        Way::Down | Way::Tidy => NEWER,
    }
}

// Whether empty ranges are refused on the way.
fn is_strict(way: Way) -> bool
    ensures { result ≡ strict_on way }
{
    matches!(way, Way::Down)
}

// Whether there are as many work words and output bytes as document 02 wants them for a move.
fn room(words: usize, size: usize) -> bool
    ensures { result ≡ (leb longest_sheet size && leb words_to_move words) }
{
    LONGEST_SHEET <= size && tables::PATH <= words
}

// Reads a sheet of this edition that is to be moved: its tables stand in the work words, which are all zero where it is refused.
fn admit(
    sheet: &[u8],
    edition: u32,
    strict: bool,
    work: &mut [u32],
    size: usize,
) -> Result<Reading, Refusal>
    requires { edition < 4294967295 }
    ensures { (result ≡ reading_of (admitted strict edition sheet.now (length work.old) size))
        × (work.new
        ≡ words_of (length work.old) (admitted strict edition sheet.now (length work.old) size)) }
{
    if !room(work.len(), size) {
        clear(work);
        return Err(Refusal::new(Reason::Memory, 0));
    }
    if LONGEST_SHEET < sheet.len() {
        clear(work);
        return Err(Refusal::new(Reason::TooLong, LONGEST_SHEET));
    }
    read_only(sheet, edition, strict, work)
}

// Moves a sheet: what is written stands at the start of the output.
fn carry(way: Way, sheet: &[u8], work: &mut [u32], output: &mut [u8]) -> Result<usize, Refusal>
    ensures { Moved (way_of way) sheet.now (lent work.old work.new) (lent output.old output.new) result }
{
    let read = admit(sheet, edition_of(way), is_strict(way), work, output.len())?;
    let moved = mover::moved(way, sheet, read.scalars + read.arrays, work, output);
    clear(work);
    moved
}

// Moves a sheet of edition 2 to edition 3, without its empty ranges; every length of the slices is allowed.
pub fn move_up(sheet: &[u8], work: &mut [u32], output: &mut [u8]) -> Result<usize, Refusal>
    ensures { Moved move_up sheet.now (lent work.old work.new) (lent output.old output.new) result }
{
    carry(Way::Up, sheet, work, output)
}

// And back: a sheet of edition 3 with full ranges, in which nothing rounds down.
pub fn move_down(sheet: &[u8], work: &mut [u32], output: &mut [u8]) -> Result<usize, Refusal>
    ensures { Moved move_down sheet.now (lent work.old work.new) (lent output.old output.new) result }
{
    carry(Way::Down, sheet, work, output)
}

// A stored sheet of edition 3 without its empty ranges, which a run refuses.
pub fn tidy(sheet: &[u8], work: &mut [u32], output: &mut [u8]) -> Result<usize, Refusal>
    ensures { Moved tidy sheet.now (lent work.old work.new) (lent output.old output.new) result }
{
    carry(Way::Tidy, sheet, work, output)
}
