// Open parameters. While a procedure's formula is walked, its frame has the call that it is active in and what each argument was when the call was
// entered. A value or a place stays what it is in every branch below. An argument that had an error then is open: it is valued again
// where a term needs it, into words of its procedure, which is active at most once, since a procedure calls earlier ones only. A procedure
// stands here by one more than its number, and 0 stands for the sheet's own formula.
ghost use Rattle.std.specs.Prelude.{◌≡◌, ◌<◌, ◌≤◌, length};
ghost use Rattle.tables.specs.Layout.{max_procs, max_parameters, path_at};
ghost use Rattle.terms.specs.Calls.{Settles, Settled, Active, around_at, Counted, Outward, Reached, is_open};
ghost use Rattle.terms.specs.Calls.{Revalues, Revalued, RevaluesOne, RevaluedOne};

use crate::evaluation::pass;
use tables::slots::TOKEN;
use tables::{end, frames, word};

// The procedure around the call that p is active in.
fn around(w: &[u32], p: u32) -> u32
    requires { Active w.now p }
    ensures { result ≡ around_at w.now p }
{
    tables::planned(w, frames::call(w, p - 1) / TOKEN + 1)
}

// Whether parameter n of procedure k is open.
fn is_open(w: &[u32], k: u32, n: u32) -> bool
    requires { (k < max_procs) × (n < max_parameters) × (path_at ≤ length w.now) }
    ensures { result ≡ is_open w.now k n }
{
    let slot = frames::argument(k, n);
    word(w, slot) == 0 && word(w, slot + 1) == 0
}

// Parameter n of procedure k is valued again, if it is open: its argument's tokens, in the environment around the call.
fn revalue_one(w: &mut [u32], from: u32, to: u32, env: u32, k: u32, n: u32)
    requires { RevaluesOne w.old from to env k n }
    ensures { RevaluedOne w.old w.new from to env k n }
{
    if !is_open(w, k, n) {
        return;
    }
    let s = pass(w, from, to, env);
    tables::set_open(w, k, n, s.tag, s.value);
}

// The open parameters of the procedure p.
fn revalue(w: &mut [u32], p: u32)
    requires { Revalues w.old p }
    ensures { Revalued w.old w.new p }
{
    let k = p - 1;
    let number = frames::call(w, k) / TOKEN + 1;
    let env = tables::planned(w, number);
    let to = end(w, number);
    let mut i = number + 1;
    let mut n = 0;
    // From end to end: no iterator could lend the words that each turn writes.
    while i < to {
        let e = end(w, i);
        revalue_one(w, i, e, env, k, n);
        i = e;
        n += 1;
    }
}

// How many calls are active from p outwards.
fn active(w: &[u32], p: u32) -> u32
    requires { Settles w.now p }
    ensures { Counted w.now p result }
{
    let mut q = p;
    let mut n = 0;
    // Each call says which is around it.
    while q != 0 {
        q = around(w, q);
        n += 1;
    }
    n
}

// The procedure j calls further out than p.
fn outward(w: &[u32], p: u32, j: u32) -> u32
    requires { Outward w.now p j }
    ensures { Reached w.now p j result }
{
    let mut q = p;
    for _ in 0..j {
        q = around(w, q);
    }
    q
}

// The open parameters of p, each after those of the calls around it that it may need.
pub fn settle(w: &mut [u32], p: u32)
    requires { Settles w.old p }
    ensures { Settled w.old w.new p }
{
    for n in (0..active(w, p)).rev() {
        revalue(w, outward(w, p, n));
    }
}
