// The loop: from one leaf of the main tree that has a block to the next.
ghost use Rattle.std.specs.Prelude.{◌≡◌};
ghost use Rattle.walker.specs.Loop.{Dues, Came, Simulates, Risen, limit, Turned, Goings, Advanced};

use crate::{atoms, calls, climb, connectives, inner, leaves, quantifiers, registers};
use search::{Go, Mode};
use specification::Setting;
use tables::leaves::{EMPTY_CODE, ERROR_CODE, FAILURE_CODE, RETURN_CODE, RISE_CODE, SUCCESS_CODE};
use tables::{codes, word};

// One visit, by the code of what is due. Going up and the end of a procedure's formula are no visits.
fn visit(w: &mut [u32], g: Go, setting: Setting) -> Go
    requires { Dues w.old g setting }
    ensures { Came w.old w.new g result setting }
{
    let code = word(w, g.due);
    match code {
        EMPTY_CODE => connectives::enter_empty(w, g),
        codes::TRUE => connectives::enter_true(w, g),
        codes::AND => connectives::enter_and(w, g),
        codes::OR => connectives::enter_or(w, g),
        codes::IMP => inner::enter_inner(w, g),
        codes::NOT => inner::enter_inner(w, g),
        codes::EX => quantifiers::enter_ex(w, g),
        codes::CALL => calls::enter_call(w, g),
        SUCCESS_CODE => leaves::success(w, g, setting),
        FAILURE_CODE => leaves::failure(w, g),
        ERROR_CODE => leaves::error(w, g),
        RISE_CODE => registers::out(g, Mode::Up),
        RETURN_CODE => registers::to(g, word(w, g.due + 1)),
        codes::LOCAL => quantifiers::enter_again(w, g),
        _ => atoms::enter_terms(w, g, code),
    }
}

// Up, if a son is finished.
fn risen(w: &mut [u32], g: Go, setting: Setting) -> Go
    requires { Simulates w.old g setting }
    ensures { Risen w.old w.new g result setting }
{
    match g.mode {
        Mode::Up => climb::climb(w, g, setting),
        _ => g,
    }
}

// A visit that is due does not come where a limit is reached.
pub(crate) fn limited(g: Go) -> Go
    ensures { result ≡ limit g }
{
    match g.mode {
        Mode::Down if g.depth == g.stop => registers::out(g, Mode::Stopped),
        _ => g,
    }
}

// One turn: a visit, and up, if a son is finished.
fn turn(w: &mut [u32], g: Go, setting: Setting) -> Go
    requires { Dues w.old g setting }
    ensures { Turned w.old w.new g result setting }
{
    let v = visit(w, g, setting);
    let c = risen(w, v, setting);
    limited(c)
}

// From the present state to the next leaf of the main tree that has a block, or to the end.
pub fn advance(w: &mut [u32], g: Go, setting: Setting) -> Go
    requires { Goings w.old g setting }
    ensures { Advanced w.old w.new g result setting }
{
    let mut q = g;
    while q.mode == Mode::Down {
        q = turn(w, q, setting);
    }
    q
}
