// What is due while the formula is read: a stack in the work words, three words an entry.
ghost use Rattle.std.specs.Prelude.{◌≡◌, ◌+◌, ◌^◌, ◌≤◌, ◌<◌, length, bit_or};
ghost use Rattle.tables.specs.Layout.{max_locals, max_nesting, max_dues, path_at};
ghost use Rattle.tables.specs.Codes.{procedure_code};
ghost use Rattle.sheet.specs.Sorts.{formula_sort, upper_sort, bounds_sort, procedure_sort, sort_number, operands_of};
ghost use Rattle.sheet.specs.Stack.{worded, sorted, entry, entry_at, entered, Coded, Repeated, Opened};

use crate::sorts::Sort;
use crate::{Token, sorts};
use tables::codes;

// What is due: its sort, how much deeper nesting may go, and the locals in scope.
#[derive(Clone, Copy)]
pub(crate) struct Entry {
    pub sort: Sort,
    pub room: u32,
    pub scope: u32,
}

// ---- the stack

// The i-th entry from the bottom.
pub(crate) fn get(w: &[u32], i: usize) -> Entry
    requires { (i < max_dues) × (path_at ≤ length w.now) }
    ensures { worded result ≡ sorted (entry_at w.now i) }
{
    let at = tables::DUES + tables::DUE_WORDS * i;
    Entry {
        sort: Sort::from(w[at]),
        room: w[at + 1],
        scope: w[at + 2],
    }
}

fn put(w: &mut [u32], i: usize, e: Entry)
    requires { (i < max_dues) × (path_at ≤ length w.old) }
    ensures { w.new ≡ entered w.old i (worded e) }
{
    let at = tables::DUES + tables::DUE_WORDS * i;
    w[at] = u32::from(e.sort);
    w[at + 1] = e.room;
    w[at + 2] = e.scope;
}

// Where a formula begins: it alone is due, with all of the nesting.
pub(crate) fn begin(w: &mut [u32])
    requires { path_at ≤ length w.old }
    ensures { w.new ≡ entered w.old 0 (entry formula_sort max_nesting 0) }
{
    let e = Entry {
        sort: Sort::Formula,
        room: tables::MAX_NESTING,
        scope: 0,
    };
    put(w, 0, e);
}

// The same entry so many times above n entries: how many there are then.
fn repeat(w: &mut [u32], n: usize, e: Entry, count: u32) -> usize
    requires { (n + count ≤ max_dues) × (path_at ≤ length w.old) }
    ensures { (result ≡ n + count) × Repeated w.old w.new n (worded e) count }
{
    let end = n + count as usize;
    for i in n..end {
        put(w, i, e);
    }
    end
}

// ---- what a token makes due

// The operands of a word where a formula or a term is due, put above n entries: how many there are then.
fn push_operands(w: &mut [u32], n: usize, e: Entry, t: Token) -> usize
    requires { (n + (operands_of t.code).count ≤ max_dues) × (path_at ≤ length w.old) × (0 < e.room) × (sort_number e.sort ≤ upper_sort)
        × (t.code < procedure_code) }
    ensures { Opened w.old w.new n (worded e) t result }
{
    let o = sorts::word_operands(t.code);
    let x = Entry {
        sort: o.sort,
        room: e.room - 1,
        ..e
    };
    repeat(w, n, x, o.count)
}

// The arguments that follow a procedure's number, beside it.
fn push_arguments(w: &mut [u32], n: usize, e: Entry, t: Token) -> usize
    requires { (n + (operands_of t.code).count ≤ max_dues) × (path_at ≤ length w.old) × (sort_number e.sort ≡ procedure_sort)
        × (procedure_code ≤ t.code) }
    ensures { Opened w.old w.new n (worded e) t result }
{
    let x = Entry {
        sort: Sort::Term,
        ..e
    };
    repeat(w, n, x, t.code - codes::PROCEDURE)
}

// The upper bound after a token of the lower one, and above it that token's operands. Only after a constant it is a sort of its own.
fn push_bounds(w: &mut [u32], n: usize, e: Entry, t: Token) -> usize
    requires { (n + 3 ≤ max_dues) × (path_at ≤ length w.old) × (0 < e.room) × (sort_number e.sort ≡ bounds_sort) × (t.code < procedure_code) }
    ensures { Opened w.old w.new n (worded e) t result }
{
    if t.code == codes::CONSTANT {
        put(
            w,
            n,
            Entry {
                sort: Sort::Upper,
                ..e
            },
        );
        return n + 1;
    }
    let x = Entry {
        sort: Sort::Term,
        ..e
    };
    put(w, n, x);
    push_operands(w, n + 1, x, t)
}

// What a token makes due where an entry was due, put above n entries: how many there are then. A binder's formula lies below its bounds.
pub(crate) fn push(w: &mut [u32], n: usize, e: Entry, t: Token) -> usize
    requires { (n + 3 ≤ max_dues) × (path_at ≤ length w.old) × (0 < e.room) × (procedure_sort < sort_number e.sort → t.operand < max_locals)
        × (sort_number e.sort ≤ procedure_sort → n + (operands_of t.code).count ≤ max_dues) × Coded (worded e) t.code }
    ensures { Opened w.old w.new n (worded e) t result }
{
    match e.sort {
        Sort::Formula | Sort::Term | Sort::Upper => push_operands(w, n, e, t),
        Sort::Bounds => push_bounds(w, n, e, t),
        Sort::Procedure => push_arguments(w, n, e, t),
        Sort::ExLocal => {
            put(w, n, body(e, t));
            n + 1
        }
        Sort::RangeLocal => {
            put(w, n, body(e, t));
            put(
                w,
                n + 1,
                Entry {
                    sort: Sort::Bounds,
                    ..e
                },
            );
            n + 2
        }
    }
}

// A binder's formula, with its local in scope.
fn body(e: Entry, t: Token) -> Entry
    requires { t.operand < max_locals }
    ensures { worded result ≡ entry formula_sort e.room (bit_or e.scope (2 ^ t.operand)) }
{
    Entry {
        sort: Sort::Formula,
        room: e.room,
        scope: tables::locals::with(e.scope, t.operand),
    }
}
