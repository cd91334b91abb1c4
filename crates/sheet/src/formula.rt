// A formula in its line: its tokens into the table, one token a turn. What is due stands on the stack.
ghost use Rattle.std.specs.Prelude.{◌≡◌, ℕ, ◌≤◌, ◌<◌, length, eqb};
ghost use Rattle.specification.specs.Lines.{Declared};
ghost use Rattle.specification.specs.Formula.{Locals};
ghost use Rattle.specification.specs.Bytes.{pick, between};
ghost use Rattle.tables.specs.Layout.{max_tokens, max_locals, path_at};
ghost use Rattle.tables.specs.Codes.{procedure_code, last_code};
ghost use Rattle.sheet.specs.Sorts.{formula_sort, upper_sort, procedure_sort, sort_number};
ghost use Rattle.sheet.specs.Dues.{Due};
ghost use Rattle.sheet.specs.Turn.{suits, declared, undeclared, placed, fault_of, empties};
ghost use Rattle.specification.specs.Refusals.{reason_number};
ghost use Rattle.sheet.specs.Stack.{Bits, worded, sort_of, Means, Kept};
ghost use Rattle.sheet.specs.FormulaLine.{refuses_in, Small, Sized, Known, counted, Spells, fault_number, Refuses, Binds, begin, Scans, Within, Closes, LineRead};

use crate::sorts::Sort;
use crate::stack::Entry;
use crate::{Token, ends, lines, stack, words};
use specification::{Reason, Refusal};
use tables::codes;
use text::{Class, Run};

// Whether reading is strict, and what is declared where a formula stands: the edition, how many scalars, locals and arrays there are, how many
// procedures stand in the lines before, and how many parameters the line has.
#[derive(Clone, Copy)]
pub(crate) struct Limits {
    pub strict: bool,
    pub edition: u32,
    pub scalars: u32,
    pub locals: u32,
    pub arrays: u32,
    pub procedures: u32,
    pub parameters: u32,
}

// Where a line or its formula begins, or what was read ends: the first token of the line before it, how many tokens stand in the table, the
// locals that have a binder, and the place.
#[derive(Clone, Copy)]
pub(crate) struct Reached {
    pub first: u32,
    pub tokens: u32,
    pub bound: u32,
    pub at: usize,
}

// ---- one token

// The token that bytes spell where something of this sort is due. The code of a procedure's number tells how many parameters it has.
fn spelt(t: &[u8], sort: Sort, d: Limits, w: &[u32]) -> Token
    requires { Small d × Sized d w.now × (path_at ≤ length w.now) }
    ensures { Spells t.now (sort_number sort) d w.now result }
{
    if sort != Sort::Procedure {
        return words::lex(t, d.edition);
    }
    let n = words::number(t);
    if n.code != codes::PROCEDURE {
        return n;
    }
    if d.procedures <= n.operand {
        return n;
    }
    Token {
        code: codes::PROCEDURE + tables::parameters(w, n.operand),
        operand: n.operand,
    }
}

// Whether a code is that of a procedure's number.
fn is_number(code: u32) -> bool
    ensures { result ≡ between procedure_code last_code code }
{
    (codes::PROCEDURE..=codes::LAST).contains(&code)
}

// Whether a code is of the sort that is due.
fn suits(sort: Sort, code: u32) -> bool
    ensures { (d : Due) → sort_number sort ≡ sort_of d → result ≡ suits d code }
{
    match sort {
        Sort::Formula => codes::is_formula(code),
        Sort::Term | Sort::Upper | Sort::Bounds => codes::is_term(code),
        Sort::Procedure => is_number(code),
        Sort::ExLocal | Sort::RangeLocal => code == codes::LOCAL,
    }
}

fn is_declared(d: Limits, t: Token) -> bool
    ensures { result ≡ declared (counted d) t }
{
    let code = t.code;
    match code {
        codes::SCALAR => t.operand < d.scalars,
        codes::LOCAL => t.operand < d.locals,
        codes::ARRAY => t.operand < d.arrays,
        codes::PARAMETER => t.operand < d.parameters,
        codes::PROCEDURE..=codes::LAST => t.operand < d.procedures,
        _ => true,
    }
}

// Why what is not declared is refused.
fn undeclared(code: u32) -> Reason
    ensures { reason_number result ≡ undeclared code }
{
    if code == codes::PARAMETER {
        Reason::Parameter
    } else if is_number(code) {
        Reason::Procedure
    } else {
        Reason::Undeclared
    }
}

// Whether a local as a term is in scope, or at its binder has no binder yet.
fn in_place(e: Entry, bound: u32, l: u32) -> bool
    requires { l < max_locals }
    ensures { (d : Due) (B : Locals) → Means (worded e) d → Bits bound B → result ≡ placed d B l }
{
    match e.sort {
        Sort::Formula | Sort::Procedure => true,
        Sort::Term | Sort::Upper | Sort::Bounds => tables::locals::has(e.scope, l),
        Sort::ExLocal | Sort::RangeLocal => !tables::locals::has(bound, l),
    }
}

// Why a token's word is refused, none where it may stand.
fn fault(d: Limits, e: Entry, bound: u32, t: Token) -> Option<Reason>
    requires { d.locals ≤ max_locals }
    ensures { (du : Due) (B : Locals) → Means (worded e) du → Bits bound B → fault_number result ≡ fault_of (counted d) du B t }
{
    if t.code == codes::BAD_CONSTANT {
        return Some(Reason::Number);
    }
    if !suits(e.sort, t.code) {
        return Some(Reason::Word);
    }
    if !is_declared(d, t) {
        return Some(undeclared(t.code));
    }
    if t.code != codes::LOCAL {
        return None;
    }
    if in_place(e, bound, t.operand) {
        return None;
    }
    Some(Reason::Binder)
}

// Why a token after so many others is refused, none where it may stand.
fn refusal(d: Limits, e: Entry, bound: u32, count: u32, t: Token) -> Option<Reason>
    requires { d.locals ≤ max_locals }
    ensures { Refuses d (worded e) bound count t (fault_number result) }
{
    if e.room == 0 || tables::MAX_TOKENS <= count {
        return Some(Reason::TooMany);
    }
    fault(d, e, bound, t)
}

// The locals that have a binder after a token.
fn bound_after(e: Entry, t: Token, bound: u32) -> u32
    requires { procedure_sort < sort_number e.sort → t.operand < max_locals }
    ensures { Binds (worded e) t bound result }
{
    match e.sort {
        Sort::ExLocal | Sort::RangeLocal => tables::locals::with(bound, t.operand),
        _ => bound,
    }
}

// ---- empty ranges

// The first edition that refuses them.
const FIRST_STRICT: u32 = 3;

fn refuses(d: Limits) -> bool
    ensures { result ≡ refuses_in d }
{
    d.strict && FIRST_STRICT <= d.edition
}

// Whether a token after so many others is an upper bound below the lower one, which is the token before it, and this is refused.
fn is_empty(refusing: bool, e: Entry, t: Token, count: u32, w: &[u32]) -> bool
    requires { (count ≤ max_tokens) × (path_at ≤ length w.now) × (sort_number e.sort ≡ upper_sort → 0 < count) }
    ensures { (d : Due) (p : ℕ) → Means (worded e) d → Kept w.now count p d → result ≡ empties refusing d t }
{
    refusing
        && e.sort == Sort::Upper
        && t.code == codes::CONSTANT
        && t.operand < tables::operand(w, count - 1)
}

// The place of the last token where a formula was due, after one more.
fn word_after(e: Entry, at: usize, word: usize) -> usize
    ensures { result ≡ pick (eqb (sort_number e.sort) formula_sort) at word }
{
    if e.sort == Sort::Formula { at } else { word }
}

// ---- the tokens

// A formula's tokens from a place on, into the table behind those that stand there, where some locals have a binder already.
fn scan(s: &[u8], d: Limits, x: Reached, w: &mut [u32]) -> Result<Reached, Refusal>
    requires { (x.at ≤ length s.now) × Small d × (path_at ≤ length w.old) × (x.tokens ≤ max_tokens) × Sized d w.old }
    ensures { (B : Locals) → Bits x.bound B
        → Scans (begin s.now d x.at x.tokens B) w.old w.new result }
{
    stack::begin(w);
    let refusing = refuses(d);
    let mut n: usize = 1;
    let mut count = x.tokens;
    let mut bound = x.bound;
    let mut at = x.at;
    let mut word = x.at;
    // A `loop`: each token says where the next begins, and whether one is due.
    loop {
        let due = stack::get(w, n - 1);
        let e = text::run_end(s, at, Run::Token);
        let t = spelt(&s[at..e], due.sort, d, w);
        let fault = refusal(d, due, bound, count, t);
        if let Some(reason) = fault {
            return Err(Refusal::new(reason, at));
        }
        if is_empty(refusing, due, t, count, w) {
            return Err(Refusal::new(Reason::EmptyBounds, word));
        }
        word = word_after(due, at, word);
        tables::set_token(w, count, t.code, t.operand);
        count += 1;
        bound = bound_after(due, t, bound);
        n = stack::push(w, n - 1, due, t);
        if n == 0 {
            return Ok(Reached {
                first: x.tokens,
                tokens: count,
                bound,
                at: e,
            });
        }
        at = lines::mark(s, e, Class::Space)?;
    }
}

// ---- the line

// A formula's tokens and the line feed after them.
pub(crate) fn to_feed(s: &[u8], d: Limits, x: Reached, w: &mut [u32]) -> Result<Reached, Refusal>
    requires { (x.at ≤ length s.now) × Small d × (path_at ≤ length w.old) × (x.tokens ≤ max_tokens) × Sized d w.old }
    ensures { Within s.now result × ((B : Locals) → Bits x.bound B → (D : Declared) → Known d w.old D
        → Closes (begin s.now d x.at x.tokens B) D w.old w.new result) }
{
    let read = scan(s, d, x, w)?;
    let at = lines::mark(s, read.at, Class::Feed)?;
    Ok(Reached { at, ..read })
}

// The formula's line and the sheet's end: its tokens into the table, and then the ends of the subtrees of all. How many tokens stand in the
// table then.
pub(crate) fn formula_line(s: &[u8], d: Limits, x: Reached, w: &mut [u32]) -> Result<u32, Refusal>
    requires { Small d × (path_at ≤ length w.old) × (x.tokens ≤ max_tokens) × Sized d w.old }
    ensures { (B : Locals) → Bits x.bound B → (D : Declared) → Known d w.old D
        → LineRead (begin s.now d x.at x.tokens B) D w.old w.new result }
{
    let from = lines::key(s, x.at, b"formula=")?;
    let read = to_feed(s, d, Reached { at: from, ..x }, w)?;
    if read.at < s.len() {
        return Err(Refusal::new(Reason::Byte, read.at));
    }
    ends::ends(w, read.tokens);
    Ok(read.tokens)
}
