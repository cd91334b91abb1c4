// The lines of formulas, word by word: the table of tokens says which word is written anew and which are dropped.
ghost use Rattle.std.specs.Prelude.{◌≡◌, ◌||◌, ◌+◌, ◌≤◌, length, take, drop};
ghost use Rattle.specification.specs.Bytes.{pick, begins};
ghost use Rattle.specification.specs.Moves.{longest_sheet};
ghost use Rattle.tables.specs.Layout.{path_at};
ghost use Rattle.listing.specs.Put.{Room, Writes};
ghost use Rattle.mover.specs.Model.{chunks, token_code, empty_at, stand_in, spelling, until_after, word_piece, rewritten};
ghost use Rattle.mover.specs.Model.{rounding_place};
ghost use Rattle.mover.specs.Steps.{kept, placed};

use listing::Writer;
use tables::codes;
use text::Run;

// ---- chunks: a word or key, and the mark after it

// The place after the mark at a place, of which there is none at the end.
fn mark_end(s: &[u8], at: usize) -> usize
    ensures { result ≡ at + length (take 1 (drop at s.now)) }
{
    if s.len() <= at {
        return at;
    }
    at + 1
}

// Whether one or the other comes at a place.
fn either_at(s: &[u8], at: usize, one: &[u8], other: &[u8]) -> bool
    ensures { result ≡ (begins one.now (drop at s.now) || begins other.now (drop at s.now)) }
{
    text::begins(s, at, one) || text::begins(s, at, other)
}

// ---- tokens

// The code of token i, 0 where the table has none. (No code is 0: with an Option each comparison would ask twice.)
fn code(w: &[u32], i: u32) -> u32
    requires { path_at ≤ length w.now }
    ensures { result ≡ token_code w.now i }
{
    if tables::MAX_TOKENS <= i {
        return 0;
    }
    tables::code(w, i)
}

// Whether a quantifier with an empty range begins at token i. No sheet has more tokens than bytes.
fn empty_at(w: &[u32], i: u32) -> bool
    requires { (path_at ≤ length w.now) × (i ≤ longest_sheet) }
    ensures { result ≡ empty_at w.now i }
{
    let c = code(w, i);
    if codes::SOME <= c
        && c <= codes::ALL
        && code(w, i + 2) == codes::CONSTANT
        && code(w, i + 3) == codes::CONSTANT
    {
        tables::operand(w, i + 3) < tables::operand(w, i + 2)
    } else {
        false
    }
}

// Tokens below this are dropped, once token i is passed.
fn until_after(w: &[u32], i: u32, until: u32) -> u32
    requires { (path_at ≤ length w.now) × (i ≤ longest_sheet) }
    ensures { result ≡ until_after w.now i until }
{
    if until <= i && empty_at(w, i) {
        tables::end(w, i)
    } else {
        until
    }
}

// ---- words

// What stands for the quantifier with an empty range at token i: a `some` never holds, an `all` always does.
fn stand_in(w: &[u32], i: u32) -> &'static [u8]
    requires { path_at ≤ length w.now }
    ensures { result.now ≡ stand_in w.now i }
{
    if code(w, i) == codes::SOME {
        return b"eq 0 1";
    }
    b"true"
}

// The first in the newer edition, the second in the older. (`newer` is the truth value of `rewritten` in specs/Model, of which the laws speak.)
fn by_edition<'a>(newer: bool, new: &'a [u8], old: &'a [u8]) -> &'a [u8]
    ensures { result.now ≡ pick newer new.now old.now }
{
    if newer {
        return new;
    }
    old
}

// The word of a code: division toward zero in the edition's spelling, any other in its own letters.
fn spelling<'a>(newer: bool, code: u32, letters: &'a [u8]) -> &'a [u8]
    ensures { result.now ≡ spelling newer code letters.now }
{
    if code == codes::QUO {
        return by_edition(newer, b"quo", b"div");
    }
    if code == codes::REM {
        return by_edition(newer, b"rem", b"mod");
    }
    letters
}

// The word of token i.
fn word<'a>(w: &[u32], newer: bool, i: u32, until: u32, letters: &'a [u8]) -> &'a [u8]
    requires { (path_at ≤ length w.now) × (i ≤ longest_sheet) }
    ensures { result.now ≡ word_piece w.now newer i until letters.now }
{
    if i < until {
        return b"";
    }
    if empty_at(w, i) {
        return stand_in(w, i);
    }
    spelling(newer, code(w, i), letters)
}

// The mark after a word, unless the next token is dropped.
fn kept(next: u32, until: u32, mark: &[u8]) -> &[u8]
    ensures { result.now ≡ kept next until mark.now }
{
    if next < until {
        return b"";
    }
    mark
}

// The lines from a place on, of which the first has token 0. (The loop goes on by chunks, which no range or iterator of the library has.)
pub(crate) fn rewrite(out: &mut Writer, s: &[u8], from: usize, w: &[u32], newer: bool)
    requires { (from ≤ length s.now) × (length s.now ≤ longest_sheet) × (path_at ≤ length w.now)
        × Room out.old.at (rewritten w.now newer 0 0 (chunks (drop from s.now))) }
    ensures { Writes out.old out.new (rewritten w.now newer 0 0 (chunks (drop from s.now))) }
{
    let mut i = from;
    let mut token: u32 = 0;
    let mut until: u32 = 0;
    while i < s.len() {
        let e = text::run_end(s, i, Run::Word);
        let next = mark_end(s, e);
        if either_at(s, e, b"=", b":") {
            out.text(&s[i..next]);
        } else {
            out.text(word(w, newer, token, until, &s[i..e]));
            until = until_after(w, token, until);
            token += 1;
            out.text(kept(token, until, &s[e..next]));
        }
        i = next;
    }
}

// ---- rounding down

// The place of the first word of the newer edition that rounds down, from a place on.
pub(crate) fn rounding(s: &[u8], at: usize) -> Option<usize>
    ensures { placed result ≡ rounding_place at (drop at s.now) }
{
    for i in at..s.len() {
        if either_at(s, i, b" div", b" mod") {
            return Some(i + 1);
        }
    }
    None
}
