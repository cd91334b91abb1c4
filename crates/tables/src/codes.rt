// The codes of tokens (specs/Codes.antt has the same numbers for contracts and proofs): ranges separate formulas from terms. Codes lie
// close together, since a match on a code becomes a table of jumps in the box's read-only memory, as long as the codes lie apart.
//
// They are numbers and no enum: a code is a word of the lent memory, and a walk's jump is a match on the word itself, with no test that it is one of
// an enum's.
ghost use Rattle.std.specs.Prelude.{◌≡◌, ◌&&◌, leb};
ghost use Rattle.tables.specs.Codes.{first_formula, last_formula, first_term, last_term};

// ---- formulas

pub const FIRST_FORMULA: u32 = 1;

pub const LAST_FORMULA: u32 = CALL;

pub const TRUE: u32 = FIRST_FORMULA;

pub const AND: u32 = 2;

pub const OR: u32 = 3;

pub const IMP: u32 = 4;

pub const NOT: u32 = 5;

pub const EQ: u32 = 6;

// The atoms that compare follow `eq`.
pub const NE: u32 = EQ + 1;

pub const LT: u32 = 8;

pub const LE: u32 = 9;

pub const GT: u32 = 10;

pub const GE: u32 = 11;

// Quantifiers follow the atoms.
pub const EX: u32 = GE + 1;

pub const SOME: u32 = 13;

pub const ALL: u32 = 14;

pub const CALL: u32 = 15;

// ---- terms

pub const FIRST_TERM: u32 = LAST_FORMULA + 1;

pub const LAST_TERM: u32 = PARAMETER;

// Operations lie below the other terms: rounding down and what it leaves, and last division toward zero and what it leaves. A match over
// them has `rem` for its other arm, the one that needs no look into the table of jumps.
pub const FIRST_OPERATION: u32 = FIRST_TERM;

pub const LAST_OPERATION: u32 = REM;

pub const DIV: u32 = FIRST_OPERATION;

pub const MOD: u32 = 17;

pub const ADD: u32 = 18;

pub const SUB: u32 = 19;

pub const MUL: u32 = 20;

pub const QUO: u32 = 21;

pub const REM: u32 = 22;

pub const CONSTANT: u32 = 23;

pub const SCALAR: u32 = 24;

pub const LOCAL: u32 = 25;

pub const ARRAY: u32 = 26;

pub const PARAMETER: u32 = 27;

// ---- no token: bytes that are no word of the set, and a constant in bad form or outside 32 bits

pub const UNKNOWN: u32 = LAST_TERM + 1;

pub const BAD_CONSTANT: u32 = LAST_TERM + 2;

// ---- neither a formula nor a term: the procedure's number in a call, whose code is this one and the procedure's number of parameters

pub const PROCEDURE: u32 = BAD_CONSTANT + 1;

// That of a procedure with eight parameters.
pub const LAST: u32 = PROCEDURE + crate::MAX_PARAMETERS;

// ---- the ranges

pub fn is_formula(code: u32) -> bool
    ensures { result ≡ (leb first_formula code && leb code last_formula) }
{
    (FIRST_FORMULA..=LAST_FORMULA).contains(&code)
}

pub fn is_term(code: u32) -> bool
    ensures { result ≡ (leb first_term code && leb code last_term) }
{
    (FIRST_TERM..=LAST_TERM).contains(&code)
}
