// The test program: it runs the cases of its standard input and prints the page of each, until a byte is lost. The file `stdin` beside src/
// holds the cases and `stdout` what is due; tools/cases.py lists the cases and makes both files.
//
// A case is a line `case PATH BUDGET SKIP OUTPUT WORDS LENGTH`, all decimals, then LENGTH bytes of sheet, then a line feed. PATH, BUDGET
// and SKIP are the setting; OUTPUT bytes and WORDS work words are lent, filled with rubbish. After the call the work words must all be
// zero and the output beyond the bytes written must hold its rubbish; else `dirty` is printed.
#![tactic(auto)]

mod header;

ghost use Rattle.std.specs.Prelude.{◌<◌, length, IfOk};

use case_file::{Stop, print_field};
use page::CLOSING;
use specification::{Ran, Refusal, Setting};
use std::io::Read;

// The bytes of the longest input.
const INPUT: usize = 655360;

// The most that is lent.
const WORDS: usize = 399360;

const OUTPUT: usize = 65536;

fn main(rt: HostRuntime) {
    let mut cases = [0u8; INPUT];
    let mut work = [0u32; WORDS];
    let mut output = [0u8; OUTPUT];
    let mut lines = [0u8; CLOSING];
    run_input(
        &mut rt.stdin(),
        &rt,
        &mut cases,
        &mut work,
        &mut output,
        &mut lines,
    );
}

// Apart from `main`, with the input as an array: beside arrays of this size the check finds no end else.
fn run_input(
    input: &mut impl Read,
    rt: &impl Print,
    cases: &mut [u8; INPUT],
    work: &mut [u32],
    output: &mut [u8],
    lines: &mut [u8; CLOSING],
) {
    let n = console::read(input, cases);
    if let Err(stop) = run_cases(rt, &cases[..n], work, output, lines) {
        let _ = console::write(rt, stop.message());
    }
}

fn run_cases(
    rt: &impl Print,
    input: &[u8],
    work: &mut [u32],
    output: &mut [u8],
    lines: &mut [u8; CLOSING],
) -> Result<(), Stop> {
    let mut cases = input;
    let mut n: usize = 0;
    // Each case says where the next begins.
    while !cases.is_empty() {
        n += 1;
        print_field(rt, b"case ", n as u64)?;
        cases = run_case(rt, cases, work, output, lines)?;
    }
    Ok(())
}

// Runs the first of the cases and answers those after it.
fn run_case<'a>(
    rt: &impl Print,
    cases: &'a [u8],
    work: &mut [u32],
    output: &mut [u8],
    lines: &mut [u8; CLOSING],
) -> Result<&'a [u8], Stop>
    ensures { IfOk result (λ rest. length rest.now < length cases.now) }
{
    let Some(case) = header::read(cases) else {
        return Err(Stop::Malformed);
    };
    let words = case.words as usize;
    let size = case.output as usize;
    if work.len() < words || output.len() < size {
        return Err(Stop::Malformed);
    }
    run_sheet(
        rt,
        case.sheet,
        case.setting,
        &mut work[..words],
        &mut output[..size],
        lines,
    )?;
    Ok(case.rest)
}

fn run_sheet(
    rt: &impl Print,
    sheet: &[u8],
    setting: Setting,
    work: &mut [u32],
    output: &mut [u8],
    lines: &mut [u8; CLOSING],
) -> Result<(), Stop> {
    work.fill(rubbish::WORD);
    output.fill(rubbish::BYTE);
    let outcome = vodlasim::run(sheet, setting, work, output);
    let listing = page::written(outcome);
    let closing = page::closing(outcome, lines);
    console::write_page(rt, &output[..listing], &lines[..closing])?;
    if !is_clean(outcome, work, output) {
        console::write(rt, b"dirty\n")?;
    }
    Ok(())
}

fn is_clean(outcome: Result<Ran, Refusal>, work: &[u32], output: &[u8]) -> bool {
    if !rubbish::is_zero(work) {
        return false;
    }
    rubbish::is_kept(output, page::written(outcome))
}
