// Quantifiers. A local's present value stands in its slot, the last value of its `all` in a word of its own.
ghost use Rattle.std.specs.Prelude.{◌≡◌, ◌+◌, ◌*◌, ◌<◌, ◌≤◌, [], ◌∷◌, length, get_or};
ghost use Rattle.tables.specs.Layout.{max_locals, local_slot, path_at};
ghost use Rattle.tables.specs.Codes.{ex_code, some_code, all_code, local_code};
ghost use Rattle.search.specs.Kept.{Pushes};
ghost use Rattle.search.specs.Records.{at, had_unit};
ghost use Rattle.search.specs.Steps.{Stepped, Entered, Valued};

use crate::records::HAD;
use crate::{OPERAND, PLAN, TOKEN, registers, sons, words};
use search::Go;
use tables::ranges::LOCAL_MARK;
use tables::{slots, word};

// The words of its second token, the local's: the local, and where the formula begins.
const LOCAL: usize = (TOKEN + OPERAND) as usize;

const BODY: usize = (TOKEN + PLAN) as usize;

// The local of the quantifier at t.
pub(crate) fn local(w: &[u32], t: u32) -> u32
    requires { t + 5 < length w.now }
    ensures { result ≡ get_or w.now (t + 5) 0 }
{
    w[t as usize + LOCAL]
}

// Its formula.
pub(crate) fn body(w: &[u32], t: u32) -> u32
    requires { t + 7 < length w.now }
    ensures { result ≡ get_or w.now (t + 7) 0 }
{
    w[t as usize + BODY]
}

// The slot of a local.
pub(crate) fn slot_of(l: u32) -> u32
    requires { l < max_locals }
    ensures { result ≡ local_slot l }
{
    slots::LOCALS + slots::WORDS * l
}

// A record of three words: the slot's second word, the register `inner`, and the slot with its first word.
fn keep(w: &mut [u32], top: usize, slot: u32, inner: u32)
    requires { (top + 3 ≤ length w.old) × (slot + 1 < path_at) × (get_or w.old slot 0 ≤ 1) × (path_at ≤ length w.old) }
    ensures { Pushes w.old w.new top (at w.old (slot + 1) ∷ inner ∷ (slot + had_unit * at w.old slot) ∷ []) }
{
    let old = word(w, slot + 1);
    let had = word(w, slot);
    words::push(w, top, &[old, inner, slot + HAD * had]);
}

// `ex`: its local is without a value, and its mark tells the depth.
pub(crate) fn enter_ex(w: &mut [u32], g: Go) -> Go
    requires { Entered w.old g ex_code }
    ensures { Stepped w.old w.new g result }
{
    let slot = slot_of(local(w, g.due));
    keep(w, g.top, slot, g.inner);
    tables::set_slot(w, slot as usize, 0, LOCAL_MARK + g.depth);
    registers::down(g, g.due + 2 * TOKEN, g.top + 3, g.inner, g.bad)
}

// The first value of a `some`. A record of five words: the slot's two, the last value, the depth of the sons, the token.
fn open(w: &mut [u32], g: Go, low: u32, high: u32) -> Go
    requires { Valued w.old g some_code low high × (low ≤ high) }
    ensures { Stepped w.old w.new g result }
{
    let slot = slot_of(local(w, g.due));
    let b = body(w, g.due);
    let had = word(w, slot);
    let old = word(w, slot + 1);
    words::push(w, g.top, &[had, old, high, g.depth + 1, g.due]);
    tables::set_slot(w, slot as usize, 1, low);
    registers::down(g, b, g.top + 5, g.inner, g.bad)
}

pub(crate) fn enter_some(w: &mut [u32], g: Go, low: u32, high: u32) -> Go
    requires { Valued w.old g some_code low high }
    ensures { Stepped w.old w.new g result }
{
    if high < low {
        return sons::fail(w, g);
    }
    open(w, g, low, high)
}

// The first value of an `all`. A record of four words: the slot's two, the last value that the local's `all` had, the token.
fn begin(w: &mut [u32], g: Go, low: u32, high: u32) -> Go
    requires { Valued w.old g all_code low high × (low ≤ high) }
    ensures { Stepped w.old w.new g result }
{
    let l = local(w, g.due);
    let slot = slot_of(l);
    let b = body(w, g.due);
    let had = word(w, slot);
    let old = word(w, slot + 1);
    let last = tables::last(w, l);
    words::push(w, g.top, &[had, old, last, g.due]);
    tables::set_last(w, l, high);
    tables::set_slot(w, slot as usize, 1, low);
    registers::down(g, b, g.top + 4, g.inner, g.bad)
}

pub(crate) fn enter_all(w: &mut [u32], g: Go, low: u32, high: u32) -> Go
    requires { Valued w.old g all_code low high }
    ensures { Stepped w.old w.new g result }
{
    if high < low {
        return sons::go_on(w, g);
    }
    begin(w, g, low, high)
}

// An `all` that comes first again: its local's token is due. The record is that of a slot with a value.
pub(crate) fn enter_again(w: &mut [u32], g: Go) -> Go
    requires { Entered w.old g local_code }
    ensures { Stepped w.old w.new g result }
{
    let l = word(w, g.due + 1);
    let slot = slot_of(l);
    let value = word(w, slot + 1);
    if value == tables::last(w, l) {
        return registers::down(g, sons::next(w, g.due - TOKEN), g.top, g.inner, g.bad);
    }
    let b = sons::next(w, g.due);
    words::push(w, g.top, &[value, g.inner, slot + HAD]);
    tables::set_slot(w, slot as usize, 1, value + 1);
    registers::down(g, b, g.top + 3, g.inner, g.bad)
}
