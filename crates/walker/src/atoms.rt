// Atoms, and quantifiers with their bounds.
ghost use Rattle.std.specs.Prelude.{◌≡◌};
ghost use Rattle.search.specs.Steps.{Stepped, Entered, Valued, HasTerms};
ghost use Rattle.walker.specs.Steps.{Checks, Assigning};
ghost use Rattle.walker.specs.Terms.{Knows};

use crate::{inner, quantifiers, registers, sons, unvalued, words};
use quick::quick;
use quick::tags::UNKNOWN;
use search::Go;
use tables::{codes, word};
use terms::Sides;

fn check(w: &[u32], g: Go, holds: bool) -> Go
    requires { Checks w.now g holds }
    ensures { Stepped w.now w.now g result }
{
    if holds {
        return sons::go_on(w, g);
    }
    sons::fail(w, g)
}

// Both terms have values. The other arm is ALL. (Here, in `visit` and in `climb` one match on a token's code picks its meaning, as a table of jumps.)
pub(crate) fn valued(w: &mut [u32], g: Go, code: u32, x: u32, y: u32) -> Go
    requires { Valued w.old g code x y × HasTerms code }
    ensures { Stepped w.old w.new g result }
{
    match code {
        codes::EQ => check(w, g, x == y),
        codes::NE => check(w, g, x != y),
        codes::LT => check(w, g, x < y),
        codes::LE => check(w, g, x <= y),
        codes::GT => check(w, g, y < x),
        codes::GE => check(w, g, y <= x),
        codes::SOME => quantifiers::enter_some(w, g, x, y),
        _ => quantifiers::enter_all(w, g, x, y),
    }
}

// The value goes into the empty slot of a place, if it may. A record of three words, as a binder's: the place's mark, the register `inner`, the slot.
pub(crate) fn assign(w: &mut [u32], g: Go, slot: u32, value: u32) -> Go
    requires { Assigning w.old g slot value }
    ensures { Stepped w.old w.new g result }
{
    let mark = word(w, slot + 1);
    if !tables::ranges::allows(w, mark, value) {
        return sons::fail(w, g);
    }
    let next = sons::next(w, g.due);
    words::push(w, g.top, &[mark, g.inner, slot]);
    tables::set_slot(w, slot as usize, 1, value);
    registers::down(g, next, g.top + 3, inner::after_given(mark, g.inner), g.bad)
}

// What the two terms are: by their plan where that tells, else by the full evaluation.
fn both(w: &mut [u32], g: Go, code: u32) -> Sides
    requires { Entered w.old g code × HasTerms code }
    ensures { Knows w.old w.new g code result }
{
    let s = quick(w, g.due);
    if s.ltag != UNKNOWN {
        return s;
    }
    unvalued::full(w, g, code)
}

// A formula with two terms.
pub(crate) fn enter_terms(w: &mut [u32], g: Go, code: u32) -> Go
    requires { Entered w.old g code × HasTerms code }
    ensures { Stepped w.old w.new g result }
{
    let s = both(w, g, code);
    unvalued::decide(w, g, code, s)
}
