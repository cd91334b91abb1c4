// The arguments of a call that is entered: each goes into its slot of the procedure's frame. A value stands there as in any slot; a slot without a
// value has the slot of a bare place, or 0, and then the parameter is open (calls.rt). Whether a slot has a value is a word of the lent memory.
ghost use Rattle.std.specs.Prelude.{◌≡◌, true, false, ◌+◌, ◌<◌, ◌≤◌, length};
ghost use Rattle.tables.specs.Layout.{max_parameters, path_at};
ghost use Rattle.terms.specs.Calls.{Arrives, Arrived};
ghost use Rattle.terms.specs.Arguments.{Bound, Written, Looks, ResultOf, Gives, Argues, Indexes, Binds, Leads, noted};

use crate::evaluation::{element, pass};
use crate::{Stack, tags};
use tables::{end, frames, operand, word};

// The second word of an open parameter's slot.
const OPEN: u32 = 0;

// A value goes into the slot. Here and below the answer is whether it is one.
fn value(w: &mut [u32], slot: u32, x: u32) -> bool
    requires { slot + 1 < length w.old }
    ensures { Bound w.old w.new slot result (Written true x) }
{
    tables::set_slot(w, slot as usize, 1, x);
    true
}

// No value: the slot of a bare place, or OPEN.
fn other(w: &mut [u32], slot: u32, x: u32) -> bool
    requires { slot + 1 < length w.old }
    ensures { Bound w.old w.new slot result (Written false x) }
{
    tables::set_slot(w, slot as usize, 0, x);
    false
}

// What the slot p of a place has.
fn place(w: &mut [u32], slot: u32, p: u32) -> bool
    requires { (p + 1 < path_at) × (path_at ≤ length w.old) × (slot + 1 < length w.old) }
    ensures { Bound w.old w.new slot result (Looks w.old p) }
{
    if word(w, p) != 0 {
        return value(w, slot, word(w, p + 1));
    }
    other(w, slot, p)
}

// The result s of a term.
fn give(w: &mut [u32], slot: u32, s: Stack) -> bool
    requires { slot + 1 < length w.old }
    ensures { Bound w.old w.new slot result (ResultOf s) }
{
    if s.tag == tags::VALUE {
        return value(w, slot, s.value);
    }
    if s.tag == tags::BARE {
        return other(w, slot, s.value);
    }
    other(w, slot, OPEN)
}

// Any term, by its tokens.
fn work(w: &mut [u32], slot: u32, from: u32, to: u32, env: u32) -> bool
    requires { Argues w.old slot from to env }
    ensures { Bound w.old w.new slot result (Gives w.old from to env) }
{
    let s = pass(w, from, to, env);
    give(w, slot, s)
}

// An element with a simple index, by the index's slot s where that has a value.
fn index(w: &mut [u32], slot: u32, s: u32, from: u32, to: u32, env: u32) -> bool
    requires { Indexes w.old slot s from to env }
    ensures { Bound w.old w.new slot result (Gives w.old from to env) }
{
    if word(w, s) == 0 {
        return work(w, slot, from, to, env);
    }
    let x = Stack {
        at: 0,
        tag: tags::VALUE,
        value: word(w, s + 1),
    };
    let e = element(w, operand(w, from), x);
    give(w, slot, e)
}

// What a parameter's slot s without a value leads to. An open one may have a value by now.
fn lead(w: &mut [u32], slot: u32, s: u32, from: u32, to: u32, env: u32) -> bool
    requires { Leads w.old slot s from to env }
    ensures { Bound w.old w.new slot result (Gives w.old from to env) }
{
    let p = word(w, s + 1);
    if p != OPEN {
        return place(w, slot, p);
    }
    work(w, slot, from, to, env)
}

// A simple term, by its slot s.
fn bind(w: &mut [u32], slot: u32, s: u32, from: u32, to: u32, env: u32) -> bool
    requires { Binds w.old slot s from to env }
    ensures { Bound w.old w.new slot result (Gives w.old from to env) }
{
    if word(w, s) != 0 {
        return value(w, slot, word(w, s + 1));
    }
    if s < frames::FRAMES as u32 {
        return other(w, slot, s);
    }
    lead(w, slot, s, from, to, env)
}

// The argument whose tokens are those from `from` up to `to`: a simple term has one, and an element with a simple index two. (Such an element is what a
// search mostly passes on; by its tokens it takes 64 instructions more.)
fn argue(w: &mut [u32], slot: u32, from: u32, to: u32, env: u32) -> bool
    requires { Argues w.old slot from to env }
    ensures { Bound w.old w.new slot result (Gives w.old from to env) }
{
    if to == from + 1 {
        return bind(w, slot, tables::planned(w, from), from, to, env);
    }
    if to == from + 2 {
        return index(w, slot, tables::planned(w, from + 1), from, to, env);
    }
    work(w, slot, from, to, env)
}

// The set of those that are no values, after parameter n, of which `is` says whether it is one.
fn note(set: u32, n: u32, is: bool) -> u32
    requires { n < max_parameters }
    ensures { result ≡ noted set n is }
{
    if is {
        return set;
    }
    tables::locals::with(set, n)
}

// The arguments of the call at token h of procedure k, in the environment that `env` points to: the set of those that are no values.
pub fn arguments(w: &mut [u32], h: u32, k: u32, env: u32) -> u32
    requires { Arrives w.old h k env }
    ensures { Arrived w.old w.new h k env result }
{
    let number = h + 1;
    let to = end(w, number);
    let mut i = number + 1;
    let mut n = 0;
    let mut set = 0;
    // From end to end: no iterator could lend the words that each turn writes.
    while i < to {
        let e = end(w, i);
        let is = argue(w, frames::argument(k, n), i, e, env);
        set = note(set, n, is);
        i = e;
        n += 1;
    }
    set
}
