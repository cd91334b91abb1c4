// Calls. A call's record keeps the frame of its procedure, which an earlier call may come back to.
ghost use Rattle.std.specs.Prelude.{◌≡◌, ◌-◌, ◌<◌};
ghost use Rattle.tables.specs.Layout.{max_locals};
ghost use Rattle.tables.specs.Codes.{call_code};
ghost use Rattle.terms.specs.Environment.{flag_of};
ghost use Rattle.search.specs.Kept.{FrameBack};
ghost use Rattle.search.specs.Records.{at};
ghost use Rattle.search.specs.Steps.{Stepped, Entered, back_word};
ghost use Rattle.walker.specs.Climbing.{OfCode};
ghost use Rattle.walker.specs.Frames.{Copied, Flagged, Refilled, Slots, Refills, Reflags, Restores, Saves, Saved, Returns, Left};

use crate::{OPERAND, PLAN, TOKEN, registers, sons, words};
use search::Go;
use tables::locals::has;
use tables::{codes, frames, leaves, word};

// The words of a call's record beside those of its arguments.
const HEAD: usize = 4;

// ---- down

// The second words of the slots of n arguments of procedure k go to the words from `top` on.
fn copy(w: &mut [u32], top: usize, k: u32, n: u32)
    requires { Saves w.old top k n }
    ensures { Copied w.old w.new top k n }
{
    for i in 0..n {
        let x = word(w, frames::argument(k, i) + 1);
        words::put(w, top + (i as usize), x);
    }
}

// A record of up to twelve words: the second words of the arguments' slots, which of them are no values, the place to return to, the call's token,
// and this call's token. Where it ends.
fn save(w: &mut [u32], top: usize, k: u32, n: u32, t: u32) -> usize
    requires { Saves w.old top k n }
    ensures { Saved w.old w.new top k n t result }
{
    copy(w, top, k, n);
    let head = top + (n as usize);
    let tags = frames::tags(w, k);
    let back = frames::back(w, k);
    let call = frames::call(w, k);
    words::push(w, head, &[tags, back, call, t]);
    head + HEAD
}

// Where the procedure of the call at t returns to: what comes after the call, or where that itself returns to.
fn back(w: &[u32], t: u32) -> u32
    requires { Returns w.now t }
    ensures { result ≡ back_word w.now t }
{
    let n = sons::next(w, t);
    if word(w, n) == leaves::RETURN_CODE {
        return word(w, n + 1);
    }
    n
}

pub(crate) fn enter_call(w: &mut [u32], g: Go) -> Go
    requires { Entered w.old g call_code }
    ensures { Stepped w.old w.new g result }
{
    let t = g.due;
    let n = word(w, t + TOKEN) - codes::PROCEDURE;
    let k = word(w, t + TOKEN + OPERAND);
    let around = word(w, t + TOKEN + PLAN);
    let b = back(w, t);
    let top = save(w, g.top, k, n, t);
    terms::calls::settle(w, around);
    let set = terms::arguments::arguments(w, t / TOKEN, k, around);
    frames::set_head(w, k, b, t, set);
    registers::down(g, TOKEN * tables::body(w, k), top, g.inner, g.bad)
}

// ---- up

// The first word of the slot of argument i.
fn first(set: u32, i: u32) -> u32
    requires { i < max_locals }
    ensures { result ≡ flag_of set i }
{
    u32::from(!has(set, i))
}

// The first words of the slots of n arguments of procedure k, by the set of those that are no values.
fn flag(w: &mut [u32], k: u32, n: u32, set: u32)
    requires { Slots w.old k n }
    ensures { Flagged w.old w.new k set n }
{
    for i in 0..n {
        words::put(w, frames::argument(k, i) as usize, first(set, i));
    }
}

// Their second words, from the word `from` on.
fn refill(w: &mut [u32], k: u32, n: u32, from: usize)
    requires { Refills w.old k n from }
    ensures { Refilled w.old w.new k from n }
{
    for i in 0..n {
        let x = words::at(w, from + (i as usize));
        words::put(w, (frames::argument(k, i) as usize) + 1, x);
    }
}

// The frame of procedure k is as the n words from `from` on, and three more, hold it. (Mostly the same arguments are values, and then no first word
// changes.)
fn reflag(w: &mut [u32], k: u32, n: u32, set: u32)
    requires { Reflags w.old k n }
    ensures { Flagged w.old w.new k set n }
{
    if set == frames::tags(w, k) {
        return;
    }
    flag(w, k, n, set);
}

fn restore(w: &mut [u32], k: u32, n: u32, from: usize)
    requires { Restores w.old k n from }
    ensures { FrameBack w.old w.new k n from }
{
    let head = from + (n as usize);
    let set = words::at(w, head);
    let back = words::at(w, head + 1);
    let call = words::at(w, head + 2);
    reflag(w, k, n, set);
    frames::set_head(w, k, back, call, set);
    refill(w, k, n, from);
}

// The topmost record is that of a call at t: its procedure's frame is as it was.
pub(crate) fn leave(w: &mut [u32], g: Go, t: u32) -> Go
    requires { OfCode w.old g call_code × (t ≡ at w.old (g.top - 1)) }
    ensures { Left w.old w.new g result }
{
    let n = word(w, t + TOKEN) - codes::PROCEDURE;
    let k = word(w, t + TOKEN + OPERAND);
    let from = g.top - HEAD - (n as usize);
    restore(w, k, n, from);
    registers::dropped(g, from, g.inner)
}
