// The test program of the moves: it moves the sheets of its standard input to another edition, or passes over them, and prints what comes out, until
// a byte is lost. The file `stdin` beside src/ holds the cases and `stdout` what is due; tools/move_cases.py lists the cases and makes both files.
//
// A case is a line `up   WWWWW OOOOO LLLLL`, or with `down` or `tidy` for `up`: the work words and output bytes that are lent, filled with rubbish,
// and the length of the sheet, each of five decimal digits; then so many bytes of sheet and a line feed. Of the way only the first letter counts.
//
// Printed are `moved=`, the length of the moved sheet and then its bytes, or `refused=` and `at=`. Then `kept`, if all work words are zero and
// the output beyond the moved sheet holds its rubbish; else `lost`.
#![tactic(auto)]

ghost use Rattle.std.specs.Prelude.{◌<◌, length, IfOk};

use case_file::{Stop, number, print_field};
use specification::Refusal;

// The bytes of a case's first line.
const HEADER: usize = 23;

// The bytes of the longest input.
const INPUT: usize = 393216;

// The most that is lent.
const WORDS: usize = 6400;

const OUTPUT: usize = 4352;

fn main(rt: HostRuntime) {
    let mut cases = [0u8; INPUT];
    let n = console::read(&mut rt.stdin(), &mut cases);
    if let Err(stop) = move_cases(&rt, &cases[..n]) {
        let _ = console::write(&rt, stop.message());
    }
}

fn move_cases(rt: &impl Print, input: &[u8]) -> Result<(), Stop> {
    let mut cases = input;
    while !cases.is_empty() {
        cases = move_case(rt, cases)?;
    }
    Ok(())
}

// Moves the sheet of the first of the cases and answers those after it.
fn move_case<'a>(rt: &impl Print, cases: &'a [u8]) -> Result<&'a [u8], Stop>
    ensures { IfOk result (λ rest. length rest.now < length cases.now) }
{
    let Some((header, rest)) = cases.split_first_chunk::<HEADER>() else {
        return Err(Stop::Malformed);
    };
    let words = number(&header[5..10]) as usize;
    let room = number(&header[11..16]) as usize;
    let size = number(&header[17..22]) as usize;
    let Some((sheet, rest)) = rest.split_at_checked(size) else {
        return Err(Stop::Malformed);
    };
    move_sheet(rt, header[0], sheet, words, room)?;
    // Behind the line feed, which the last case may lack.
    Ok(rest.get(1..).unwrap_or(rest))
}

// Moves a sheet with so much lent.
fn move_sheet(
    rt: &impl Print,
    way: u8,
    sheet: &[u8],
    words: usize,
    room: usize,
) -> Result<(), Stop> {
    let mut work = [0u32; WORDS];
    let mut output = [0u8; OUTPUT];
    if WORDS < words || OUTPUT < room {
        return Err(Stop::TooMuch);
    }
    move_lent(rt, way, sheet, &mut work[..words], &mut output[..room])
}

fn move_lent(
    rt: &impl Print,
    way: u8,
    sheet: &[u8],
    work: &mut [u32],
    output: &mut [u8],
) -> Result<(), Stop> {
    work.fill(rubbish::WORD);
    output.fill(rubbish::BYTE);
    let moved = moved(way, sheet, work, output);
    print_move(rt, &moved, output)?;
    print_kept(rt, is_kept(moved, work, output))
}

fn moved(way: u8, sheet: &[u8], work: &mut [u32], output: &mut [u8]) -> Result<usize, Refusal> {
    match way {
        b'u' => vodlasim::move_up(sheet, work, output),
        b'd' => vodlasim::move_down(sheet, work, output),
        _ => vodlasim::tidy(sheet, work, output),
    }
}

fn is_kept(moved: Result<usize, Refusal>, work: &[u32], output: &[u8]) -> bool {
    if !rubbish::is_zero(work) {
        return false;
    }
    rubbish::is_kept(output, moved.unwrap_or(0))
}

// ---- what is printed

fn print_move(rt: &impl Print, moved: &Result<usize, Refusal>, output: &[u8]) -> Result<(), Stop> {
    match moved {
        Err(refusal) => print_refusal(rt, *refusal),
        Ok(written) => print_moved(rt, *written, output),
    }
}

fn print_refusal(rt: &impl Print, refusal: Refusal) -> Result<(), Stop> {
    print_field(rt, b"refused=", u64::from(refusal.number()))?;
    print_field(rt, b"at=", refusal.place() as u64)?;
    Ok(())
}

// A sheet that is said to be longer than the output is not printed.
fn print_moved(rt: &impl Print, written: usize, output: &[u8]) -> Result<(), Stop> {
    print_field(rt, b"moved=", written as u64)?;
    let Some(sheet) = output.get(..written) else {
        return Err(Stop::TooMuch);
    };
    console::write(rt, sheet)?;
    Ok(())
}

fn print_kept(rt: &impl Print, kept: bool) -> Result<(), Stop> {
    let line: &[u8] = if kept { b"kept\n" } else { b"lost\n" };
    console::write(rt, line)?;
    Ok(())
}
