// The leaves of the tree. Those of the main tree that have a block leave the loop, and the block's writer counts them.
ghost use Rattle.std.specs.Prelude.{◌≡◌};
ghost use Rattle.tables.specs.Leaves.{success_code, failure_code, error_code};
ghost use Rattle.specification.specs.Run.{add_node};
ghost use Rattle.search.specs.Registers.{tallied};
ghost use Rattle.search.specs.Steps.{Stepped, Entered};
ghost use Rattle.walker.specs.Steps.{Visits, Arrived, SteppedWithin};

use crate::{climb, inner, registers, tallies};
use search::{Errors, Go, Mode, Tally};
use specification::{Setting, Tallies};

// The tallies with the visit of the leaf, and of the nodes since the last one.
pub(crate) fn visited(g: Go) -> Tallies
    requires { Visits g }
    ensures { result ≡ add_node (tallied g) }
{
    let t = g.tallies;
    tallies::visited(t, g.depth + 1 - g.from)
}

// A failure leaf: it is counted in the main tree only.
pub(crate) fn failure(w: &[u32], g: Go) -> Go
    requires { Entered w.now g failure_code }
    ensures { Stepped w.now w.now g result }
{
    let t = visited(g);
    if g.inner == inner::MAIN {
        let u = tallies::counted(t, Tally::Failure);
        return registers::leaf(g, Mode::Up, g.bad, u);
    }
    registers::leaf(g, Mode::Up, g.bad, t)
}

// An error leaf: in the main tree it has a block, an inner tree keeps it in mind.
pub(crate) fn error(w: &[u32], g: Go) -> Go
    requires { Entered w.now g error_code }
    ensures { Stepped w.now w.now g result }
{
    if g.inner == inner::MAIN {
        return registers::out(g, Mode::Block);
    }
    let t = visited(g);
    registers::leaf(g, Mode::Up, Errors::Seen, t)
}

// A success leaf: in the main tree it has a block, an inner tree ends with it.
pub(crate) fn success(w: &mut [u32], g: Go, setting: Setting) -> Go
    requires { Arrived w.old g success_code setting }
    ensures { SteppedWithin w.old w.new g result setting }
{
    if g.inner == inner::MAIN {
        return registers::out(g, Mode::Block);
    }
    let t = visited(g);
    let u = climb::unwind(w, registers::leaf(g, Mode::Won, g.bad, t));
    inner::grant(w, u, setting)
}
