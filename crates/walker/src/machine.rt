// The walk of a sheet's tree: from leaf to leaf, and the block of each.
ghost use Rattle.std.specs.Prelude.{◌≡◌};
ghost use Rattle.search.specs.Registers.{tallied};
ghost use Rattle.walker.specs.Blocks.{LeafDue, HeadDue, head_due, passed_go, full_go, BlockDue, Blocked};
ghost use Rattle.walker.specs.Steps.{Visits};
ghost use Rattle.walker.specs.Walked.{Readied, Sets, end_by, Finished, Walked};
ghost use Rattle.walker.specs.Walks.{Onward, Onwards};

use crate::leaves::visited;
use crate::{State, TOKEN, Task, advance, registers, tallies};
use listing::Head;
use search::{Go, Mode, Tally};
use specification::{End, Ran};
use tables::leaves;

// The head of the block of the leaf that is due.
fn head(w: &[u32], g: Go) -> Head
    requires { HeadDue w.now g }
    ensures { result ≡ head_due w.now g }
{
    let t = g.tallies;
    if g.due == leaves::SUCCESS {
        return Head::Answer {
            number: t.answers + 1,
        };
    }
    Head::Error {
        number: t.errors + 1,
        kind: leaves::kind(w),
        token: leaves::token(w),
    }
}

// Its visit is counted, and so is the leaf: going up is due.
fn passed(g: Go) -> Go
    requires { LeafDue g }
    ensures { result ≡ passed_go g }
{
    let t = visited(g);
    if g.due == leaves::SUCCESS {
        let u = tallies::counted(t, Tally::Answer);
        return registers::rising(registers::leaf(g, Mode::Down, g.bad, u));
    }
    let u = tallies::counted(t, Tally::Error);
    registers::rising(registers::leaf(g, Mode::Down, g.bad, u))
}

// Its visit is counted, and there is no room for its block.
fn full(g: Go) -> Go
    requires { Visits g }
    ensures { result ≡ full_go g }
{
    let t = visited(g);
    registers::leaf(g, Mode::Full, g.bad, t)
}

fn state(go: Go, written: usize) -> State
    ensures { (result.go ≡ go) × (result.written ≡ written) }
{
    State { go, written }
}

// The block that is due: skipped, written into the rest of the output, or without room there.
fn block(w: &[u32], out: &mut [u8], s: State, task: Task) -> State
    requires { BlockDue w.now out.old s task }
    ensures { Blocked w.now out.old out.new s result task }
{
    let g = s.go;
    let t = g.tallies;
    let written = s.written;
    if t.answers + t.errors < task.setting.skip {
        return state(passed(g), written);
    }
    let h = head(w, g);
    let rest = &mut out[written..];
    match listing::write(rest, w, task.scalars, task.arrays, h) {
        None => state(full(g), written),
        Some(n) => state(passed(g), written + n),
    }
}

// To the next leaf, if there was room.
fn onward(w: &mut [u32], s: State, task: Task) -> State
    requires { Onwards w.old s task }
    ensures { Onward w.old w.new s result task }
{
    let g = s.go;
    if g.mode == Mode::Full {
        return s;
    }
    state(advance::advance(w, g, task.setting), s.written)
}

// (Both this function and `onward` call `advance`, so that the compiler keeps the loop a function of its own: 7 instructions a node.)
fn walk(w: &mut [u32], out: &mut [u8], task: Task) -> State
    requires { Sets w.old task }
    ensures { Finished w.old w.new out.old out.new task result }
{
    let g = advance::limited(registers::start(TOKEN * task.formula, task.setting));
    let first = advance::advance(w, g, task.setting);
    let mut s = state(first, 0);
    while s.go.mode == Mode::Block {
        let b = block(w, out, s, task);
        s = onward(w, b, task);
    }
    s
}

// How the walk ended, with so many nodes visited.
fn end_of(mode: Mode, nodes: u32, budget: u32) -> End
    ensures { result ≡ end_by mode nodes budget }
{
    match mode {
        Mode::Done => End::Done,
        Mode::Full => End::Output,
        _ => {
            if nodes == budget {
                return End::Spent;
            }
            End::Path
        }
    }
}

// Walks the tree of the sheet whose tables the work words hold, and writes its listing.
pub fn walk_tables(w: &mut [u32], out: &mut [u8], task: Task) -> Ran
    requires { Readied w.old task }
    ensures { Walked w.old w.new out.old out.new task result }
{
    plan::plan(w, task.formula);
    let s = walk(w, out, task);
    let g = s.go;
    let u = g.tallies;
    let t = tallies::visited(u, g.depth - g.from);
    let end = end_of(g.mode, t.nodes, task.setting.budget);
    Ran {
        end,
        tallies: t,
        written: s.written,
    }
}
