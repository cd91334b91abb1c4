// The public calls and the plotter's port (port.rt) for C and Rust hosts, over numbers and slices.
#![tactic(auto)]

mod port;

ghost use Rattle.std.specs.Prelude.{◌≡◌};
ghost use Rattle.specification.specs.Report.{refusal_report, report_of, move_report};
ghost use Rattle.specification.specs.Moves.{move_up, move_down, tidy};
ghost use Rattle.vodlasim.specs.Lent.{lent};
ghost use Rattle.vodlasim_c.specs.Report.{Reported, MoveReported};

use specification::{Ran, Refusal, Setting};

// `vodlasim::run`, with its outcome in `report`, as the specification's `report_of` gives it: refused number or 0, place, the end's number,
// nodes, answers, errors, fails, bytes written. Every length of the slices is allowed.
#[unsafe(no_mangle)]
pub extern "C" fn vodlasim_run(
    sheet: &[u8],
    path_limit: u32,
    budget: u32,
    skip: u32,
    work: &mut [u32],
    output: &mut [u8],
    report: &mut [u64; 8],
)
    ensures { Reported sheet.now (record { path = path_limit; budget = budget; skip = skip }) (lent work.old work.new) (lent output.old output.new) report.new }
{
    let setting = Setting {
        path: path_limit,
        budget,
        skip,
    };
    let outcome = vodlasim::run(sheet, setting, work, output);
    *report = numbers(outcome);
}

// `vodlasim::move_up`, `vodlasim::move_down` and `vodlasim::tidy`, with what they return in `report`, as the specification's `move_report` gives it:
// refused number or 0, place, five zeros, bytes written. Every length of the slices is allowed.
#[unsafe(no_mangle)]
pub extern "C" fn vodlasim_move_up(
    sheet: &[u8],
    work: &mut [u32],
    output: &mut [u8],
    report: &mut [u64; 8],
)
    ensures { MoveReported move_up sheet.now (lent work.old work.new) (lent output.old output.new) report.new }
{
    let moved = vodlasim::move_up(sheet, work, output);
    *report = move_numbers(moved);
}

#[unsafe(no_mangle)]
pub extern "C" fn vodlasim_move_down(
    sheet: &[u8],
    work: &mut [u32],
    output: &mut [u8],
    report: &mut [u64; 8],
)
    ensures { MoveReported move_down sheet.now (lent work.old work.new) (lent output.old output.new) report.new }
{
    let moved = vodlasim::move_down(sheet, work, output);
    *report = move_numbers(moved);
}

#[unsafe(no_mangle)]
pub extern "C" fn vodlasim_tidy(
    sheet: &[u8],
    work: &mut [u32],
    output: &mut [u8],
    report: &mut [u64; 8],
)
    ensures { MoveReported tidy sheet.now (lent work.old work.new) (lent output.old output.new) report.new }
{
    let moved = vodlasim::tidy(sheet, work, output);
    *report = move_numbers(moved);
}

// ---- reports

fn refusal_numbers(refusal: Refusal) -> [u64; 8]
    ensures { result ≡ refusal_report refusal }
{
    [
        u64::from(refusal.number()),
        refusal.place() as u64,
        0,
        0,
        0,
        0,
        0,
        0,
    ]
}

fn move_numbers(moved: Result<usize, Refusal>) -> [u64; 8]
    ensures { result ≡ move_report moved }
{
    match moved {
        Err(refusal) => refusal_numbers(refusal),
        Ok(written) => [0, 0, 0, 0, 0, 0, 0, written as u64],
    }
}

fn numbers(outcome: Result<Ran, Refusal>) -> [u64; 8]
    ensures { result ≡ report_of outcome }
{
    match outcome {
        Err(refusal) => refusal_numbers(refusal),
        Ok(ran) => [
            0,
            0,
            ran.end as u64,
            u64::from(ran.tallies.nodes),
            u64::from(ran.tallies.answers),
            u64::from(ran.tallies.errors),
            u64::from(ran.tallies.fails),
            ran.written as u64,
        ],
    }
}
