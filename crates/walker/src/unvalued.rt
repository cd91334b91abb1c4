// The two terms of a formula by the full evaluation, where their plan does not tell; and what a formula makes of what its terms are.
ghost use Rattle.std.specs.Prelude.{◌≡◌, ◌+◌, ◌≤◌, ◌<◌, length};
ghost use Rattle.tables.specs.Layout.{max_tokens, path_at};
ghost use Rattle.tables.specs.Frames.{frames_at};
ghost use Rattle.search.specs.Steps.{Stepped, Entered, HasTerms};
ghost use Rattle.walker.specs.Terms.{AreValues, Decides, Equates, Knows, Lacks, kind_of, first_term, end_of_terms, frame_of, Searches, Found};

use crate::{TOKEN, atoms, sons};
use search::Go;
use tables::{codes, frames};
use terms::evaluation::sides;
use terms::{Sides, kinds, tags};

// The kind of the error that a term without a value makes.
fn kind_of(tag: u32, value: u32) -> u32
    ensures { result ≡ kind_of tag value }
{
    if tag == tags::BARE {
        return kinds::NO_VALUE;
    }
    value
}

// An `eq` of which not both sides have values. The left side's error comes first.
fn equate(w: &mut [u32], g: Go, s: Sides) -> Go
    requires { Equates w.old g s }
    ensures { Stepped w.old w.new g result }
{
    if s.ltag == tags::ERROR {
        return sons::err(w, g, s.left, g.due / TOKEN);
    }
    if s.rtag == tags::ERROR {
        return sons::err(w, g, s.right, g.due / TOKEN);
    }
    if s.ltag == tags::VALUE {
        return atoms::assign(w, g, s.right, s.left);
    }
    if s.rtag == tags::VALUE {
        return atoms::assign(w, g, s.left, s.right);
    }
    sons::err(w, g, kinds::NO_VALUE, g.due / TOKEN)
}

// Two terms that have not both values.
fn lacks(w: &mut [u32], g: Go, code: u32, s: Sides) -> Go
    requires { Lacks w.old g code s }
    ensures { Stepped w.old w.new g result }
{
    if code == codes::EQ {
        return equate(w, g, s);
    }
    if s.ltag != tags::VALUE {
        return sons::err(w, g, kind_of(s.ltag, s.left), g.due / TOKEN);
    }
    sons::err(w, g, kind_of(s.rtag, s.right), g.due / TOKEN)
}

fn are_values(s: Sides) -> bool
    ensures { AreValues s result }
{
    s.ltag == tags::VALUE && s.rtag == tags::VALUE
}

// What the two terms are is known. (Each case has one call, so that the compiler makes it a part of the loop.)
pub(crate) fn decide(w: &mut [u32], g: Go, code: u32, s: Sides) -> Go
    requires { Decides w.old g code s }
    ensures { Stepped w.old w.new g result }
{
    if are_values(s) {
        return atoms::valued(w, g, code, s.left, s.right);
    }
    lacks(w, g, code, s)
}

// The first token of the terms of the formula at token h: after a quantifier comes its local.
fn first_term(h: u32, code: u32) -> u32
    requires { h < max_tokens }
    ensures { result ≡ first_term h code }
{
    if code < codes::EX {
        return h + 1;
    }
    h + 2
}

// The token after them.
fn end_of_terms(w: &[u32], h: u32, code: u32) -> u32
    requires { (h + 1 < max_tokens) × (path_at ≤ length w.now) }
    ensures { result ≡ end_of_terms w.now h code }
{
    if code < codes::EX {
        return tables::end(w, h);
    }
    tables::planned(w, h + 1) / TOKEN
}

// The number of the procedure whose frame has the slot.
fn number(slot: u32) -> u32
    requires { frames_at ≤ slot }
    ensures { result ≡ frame_of slot }
{
    (slot - frames::FIRST) / frames::WORDS
}

// The procedure whose parameters stand in the tokens from `from` up to `to`, by one more than its number; 0 where none stands there. (A word and no
// Option, since terms::evaluation::sides takes it so: it is the place of an environment in the tables.)
fn procedure(w: &[u32], from: u32, to: u32) -> u32
    requires { Searches w.now from to }
    ensures { Found w.now from to result }
{
    for i in from..to {
        if tables::code(w, i) == codes::PARAMETER {
            return number(tables::planned(w, i)) + 1;
        }
    }
    0
}

// The two terms of the formula that is due, whose code this is.
pub(crate) fn full(w: &mut [u32], g: Go, code: u32) -> Sides
    requires { Entered w.old g code × HasTerms code }
    ensures { Knows w.old w.new g code result }
{
    let h = g.due / TOKEN;
    let from = first_term(h, code);
    let to = end_of_terms(w, h, code);
    let p = procedure(w, from, to);
    sides(w, from, to, p)
}
