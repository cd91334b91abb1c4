// Going up, from record to record.
ghost use Rattle.std.specs.Prelude.{◌≡◌, ◌-◌, ◌<◌, length};
ghost use Rattle.tables.specs.Layout.{cells_at};
ghost use Rattle.tables.specs.Codes.{some_code, all_code, or_code};
ghost use Rattle.search.specs.Records.{at};
ghost use Rattle.search.specs.Climb.{Rises, Rose, Fell};
ghost use Rattle.walker.specs.Climbing.{KeepsSlot, OfCode, Undone, Closed, Ended, RisesTo, RisesFrom, Climbed, WinsInside, WinsFrom, Releases, asking, Unwound};

use crate::{OPERAND, calls, inner, quantifiers, records, registers, words};
use search::{Go, Mode};
use specification::Setting;
use tables::{codes, word};

// The topmost record keeps a slot, which is told by its last word x: the slot is as it was.
fn undo(w: &mut [u32], g: Go, x: u32) -> Go
    requires { KeepsSlot w.old g × (x ≡ at w.old (g.top - 1)) }
    ensures { Undone w.old w.new g result }
{
    let old = words::at(w, g.top - 3);
    let inner = words::at(w, g.top - 2);
    tables::set_slot(w, (x % records::HAD) as usize, x / records::HAD, old);
    registers::dropped(g, g.top - 3, inner)
}

// It is that of a `some` at t: the slot of the local is as it was.
fn close(w: &mut [u32], g: Go, t: u32) -> Go
    requires { OfCode w.old g some_code × (t ≡ at w.old (g.top - 1)) }
    ensures { Closed w.old w.new g result }
{
    let slot = quantifiers::slot_of(quantifiers::local(w, t));
    let had = words::at(w, g.top - 5);
    let old = words::at(w, g.top - 4);
    tables::set_slot(w, slot as usize, had, old);
    registers::dropped(g, g.top - 5, g.inner)
}

// It is that of an `all` at t: the slot of the local and its last value are as they were.
fn end(w: &mut [u32], g: Go, t: u32) -> Go
    requires { OfCode w.old g all_code × (t ≡ at w.old (g.top - 1)) }
    ensures { Ended w.old w.new g result }
{
    let l = quantifiers::local(w, t);
    let slot = quantifiers::slot_of(l);
    let had = words::at(w, g.top - 4);
    let old = words::at(w, g.top - 3);
    let last = words::at(w, g.top - 2);
    tables::set_last(w, l, last);
    tables::set_slot(w, slot as usize, had, old);
    registers::dropped(g, g.top - 4, g.inner)
}

// ---- after a son is finished

// The second son of an `or` at t.
fn other(w: &[u32], g: Go, t: u32, setting: Setting) -> Go
    requires { RisesTo w.now g or_code t setting }
    ensures { Rose w.now w.now g result setting }
{
    let depth = words::at(w, g.top - 2);
    registers::resumed(
        g,
        word(w, t + OPERAND),
        depth,
        g.top - 2,
        g.inner,
        g.bad,
        setting,
    )
}

// The next value of a `some` at t, or none is left.
fn value(w: &mut [u32], g: Go, t: u32, setting: Setting) -> Go
    requires { RisesTo w.old g some_code t setting }
    ensures { Rose w.old w.new g result setting }
{
    let slot = quantifiers::slot_of(quantifiers::local(w, t));
    let current = word(w, slot + 1);
    if current < words::at(w, g.top - 3) {
        let b = quantifiers::body(w, t);
        let depth = words::at(w, g.top - 2);
        words::put(w, (slot as usize) + 1, current + 1);
        return registers::resumed(g, b, depth, g.top, g.inner, g.bad, setting);
    }
    close(w, g, t)
}

// One record that belongs to the token t.
fn rise_token(w: &mut [u32], g: Go, t: u32, setting: Setting) -> Go
    requires { RisesFrom w.old g t setting }
    ensures { Rose w.old w.new g result setting }
{
    let code = word(w, t);
    match code {
        codes::OR => other(w, g, t, setting),
        codes::SOME => value(w, g, t, setting),
        codes::ALL => end(w, g, t),
        codes::CALL => calls::leave(w, g, t),
        _ => inner::judge(w, g, t, setting),
    }
}

// One record, or none is left.
fn rise(w: &mut [u32], g: Go, setting: Setting) -> Go
    requires { Rises w.old g setting }
    ensures { Rose w.old w.new g result setting }
{
    if g.top == tables::PATH {
        return registers::out(g, Mode::Done);
    }
    let x = words::at(w, g.top - 1);
    if records::SLOTS <= x {
        return undo(w, g, x);
    }
    rise_token(w, g, x, setting)
}

// Up until something is due.
pub(crate) fn climb(w: &mut [u32], g: Go, setting: Setting) -> Go
    requires { Rises w.old g setting }
    ensures { Climbed w.old w.new g result setting }
{
    let mut q = g;
    while q.mode == Mode::Up {
        q = rise(w, q, setting);
    }
    q
}

// ---- after an inner tree has succeeded

// One record that belongs to the token t of no node that asks.
fn release_token(w: &mut [u32], g: Go, t: u32) -> Go
    requires { WinsFrom w.old g t }
    ensures { Fell w.old w.new g result }
{
    let code = word(w, t);
    match code {
        codes::OR => registers::dropped(g, g.top - 2, g.inner),
        codes::SOME => close(w, g, t),
        codes::ALL => end(w, g, t),
        _ => calls::leave(w, g, t),
    }
}

// One record.
fn release(w: &mut [u32], g: Go, x: u32) -> Go
    requires { Releases w.old g x }
    ensures { Fell w.old w.new g result }
{
    if records::SLOTS <= x {
        return undo(w, g, x);
    }
    release_token(w, g, x)
}

// Whether the record whose last word is x is that of a node with an inner tree.
fn asks(w: &[u32], x: u32) -> bool
    requires { x < cells_at → x < length w.now }
    ensures { result ≡ asking w.now x }
{
    if records::SLOTS <= x {
        return false;
    }
    let code = word(w, x);
    code == codes::NOT || code == codes::IMP
}

// All records above that of the node whose inner tree it is.
pub(crate) fn unwind(w: &mut [u32], g: Go) -> Go
    requires { WinsInside w.old g }
    ensures { Unwound w.old w.new g result }
{
    let mut q = g;
    let mut x = words::at(w, g.top - 1);
    while !asks(w, x) {
        q = release(w, q, x);
        x = words::at(w, q.top - 1);
    }
    q
}
