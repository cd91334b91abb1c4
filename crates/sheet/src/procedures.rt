// The lines of procedures: each one's tokens into the table behind those of the lines before, and its entry into the table of procedures.
ghost use Rattle.std.specs.Prelude.{◌≡◌, true, length, MatchResult};
ghost use Rattle.specification.specs.Sheet.{most_procedures};
ghost use Rattle.sheet.specs.Whole.{Stopped, Filled, left_lines, follows, Begun, OneMore};

use crate::formula::{Limits, Reached};
use crate::reader::Progress;
use crate::{formula, lines, words};
use specification::Refusal;
use text::Class;

// How many procedures an edition has at most.
fn most(edition: u32) -> u32
    ensures { result ≡ most_procedures edition }
{
    if edition == words::FIRST_EDITION {
        0
    } else {
        tables::MAX_PROCS
    }
}

// Whether one more line of a procedure follows what was read.
fn more(s: &[u8], p: Progress) -> bool
    ensures { result ≡ follows s.now p }
{
    p.limits.procedures < most(p.limits.edition) && text::begins(s, p.reached.at, b"p")
}

// ---- one line

// The formula of a procedure with n parameters, from a place on, and the line feed after it.
fn body(s: &[u8], from: usize, p: Progress, n: u32, w: &mut [u32]) -> Result<Progress, Refusal>
    requires { Begun s.now (length w.old) p n from w.old }
    ensures { MatchResult result (λ q. OneMore s.now p q w.new) (Stopped p.limits.strict s.now) }
{
    let d = p.limits;
    let x = p.reached;
    let read = formula::to_feed(
        s,
        Limits { parameters: n, ..d },
        Reached { at: from, ..x },
        w,
    )?;
    tables::set_proc(w, d.procedures, x.tokens, n);
    let procedures = d.procedures + 1;
    Ok(Progress {
        limits: Limits {
            procedures,
            parameters: 0,
            ..d
        },
        reached: Reached {
            first: x.tokens,
            ..read
        },
    })
}

fn procedure_line(s: &[u8], p: Progress, w: &mut [u32]) -> Result<Progress, Refusal>
    requires { (follows s.now p ≡ true) × Filled (left_lines p.limits) s.now (length w.old) p w.old }
    ensures { MatchResult result (λ q. OneMore s.now p q w.new) (Stopped p.limits.strict s.now) }
{
    let (n, from) = lines::count_line(
        s,
        p.reached.at,
        b"proc=",
        0,
        tables::MAX_PARAMETERS,
        Class::Colon,
    )?;
    body(s, from, p, n, w)
}

// ---- all of them

pub(crate) fn procedure_lines(s: &[u8], p: Progress, w: &mut [u32]) -> Result<Progress, Refusal>
    requires { Filled (left_lines p.limits) s.now (length w.old) p w.old }
    ensures { MatchResult result
        (λ q. (q.limits.strict ≡ p.limits.strict) × Filled 0 s.now (length w.new) q w.new)
        (Stopped p.limits.strict s.now) }
{
    let mut q = p;
    while more(s, q) {
        q = procedure_line(s, q, w)?;
    }
    Ok(q)
}
