// The leaves of the sheet's reader: parts and keys, classes of bytes, runs of bytes, and decimal numbers.
#![tactic(auto)]

ghost use Rattle.std.specs.Prelude.{◌≡◌, ◌+◌, ◌*◌, ◌≤◌, length, drop};
ghost use Rattle.std.specs.List.{take_while};
ghost use Rattle.specification.specs.Bytes.{class_of, run, begins};
ghost use Rattle.specification.specs.Number.{natural, integer};
ghost use Rattle.text.specs.Class.{specified, number_at, class_at, passing};
ghost use Rattle.text.specs.Decimal.{held, read_on, headed, capped, plain_word, minus_word, worded};

// ---- parts and keys

// The part of the sheet from a place on: a line's value, after its equals sign.
pub fn value(s: &[u8], from: usize) -> &[u8]
    ensures { result.now ≡ drop from s.now }
{
    if from <= s.len() {
        return &s[from..];
    }
    let n = s.len();
    &s[n..]
}

// Whether these bytes come at a place.
#[tactic(auto, using(crate::proofs::Laws::Keys::starts_begins))]
pub fn begins(s: &[u8], at: usize, key: &[u8]) -> bool
    ensures { result ≡ begins key.now (drop at s.now) }
{
    value(s, at).starts_with(key)
}

// ---- classes

// The classes of bytes, those of the specification.
#[derive(Clone, Copy, PartialEq, Eq, Debug)]
pub enum Class {
    Letter,
    Digit,
    Space,
    Feed,
    Minus,
    Equals,
    Comma,
    Colon,
    Point,
    Other,
}

impl Class {
    // The class of a byte, by ranges of byte values: at most three comparisons for the letters, digits and spaces that sheets are made of. (One
    // match is a table of jumps in the box's read-only memory, and 13 instructions a byte.)
    #[tactic(auto, using(crate::proofs::Laws::Class::other_class), unfolding(specification::specs::Bytes::class_of))]
    pub fn of(b: u8) -> Class
        ensures { specified result ≡ class_of b }
    {
        if b'a' <= b {
            if b <= b'z' {
                Class::Letter
            } else {
                Class::Other
            }
        } else if b'0' <= b {
            if b <= b'9' {
                Class::Digit
            } else if b == b':' {
                Class::Colon
            } else if b == b'=' {
                Class::Equals
            } else {
                Class::Other
            }
        } else if b == b' ' {
            Class::Space
        } else if b < b',' {
            if b == b'\n' {
                Class::Feed
            } else {
                Class::Other
            }
        } else if b == b',' {
            Class::Comma
        } else if b == b'-' {
            Class::Minus
        } else if b == b'.' {
            Class::Point
        } else {
            Class::Other
        }
    }
}

// The class of the byte at a place of the sheet; none at its end and beyond.
#[tactic(auto, using(crate::proofs::Laws::Class::class_of_byte, crate::proofs::Laws::Class::class_beyond))]
pub fn class_at(s: &[u8], at: usize) -> Option<Class>
    ensures { number_at result ≡ class_at s.now at }
{
    Some(Class::of(*s.get(at)?))
}

// ---- runs

// The kinds of run: digits and minus signs, the bytes of a token, and those of a word or key.
#[derive(Clone, Copy, PartialEq, Eq, Debug)]
pub enum Run {
    Number,
    Token,
    Word,
}

impl Run {
    // Whether a byte can stand in a run of the kind.
    #[tactic(auto, unfolding(specification::specs::Bytes::in_number, specification::specs::Bytes::in_token, specification::specs::Bytes::is_in, specification::specs::Bytes::class_number, crate::specs::Class::in_word))]
    pub fn passes(self, b: u8) -> bool
        ensures { result ≡ passing self b }
    {
        let k = Class::of(b);
        match self {
            Run::Number => matches!(k, Class::Digit | Class::Minus),
            Run::Token => !matches!(k, Class::Space | Class::Feed),
            Run::Word => matches!(k, Class::Letter | Class::Digit | Class::Minus),
        }
    }
}

// How many bytes the longest run of the kind from the start has.
fn run_length(v: &[u8], kind: Run) -> usize
    ensures { result ≡ length (take_while (passing kind) v.now) }
{
    v.iter().take_while(|&&b| kind.passes(b)).count()
}

// The place after the longest run of the kind from a place on.
#[tactic(auto, using(crate::proofs::Laws::Run::taken))]
pub fn run_end(s: &[u8], at: usize, kind: Run) -> usize
    ensures { result ≡ at + length (run (passing kind) (drop at s.now)) }
{
    at + run_length(value(s, at), kind)
}

// ---- numbers

// 2^32, where a number that is read stops growing: what is above every limit of a sheet needs no value of its own.
const CAP: u64 = 4294967296;

// A number with one digit more, held at 2^32.
fn grown(n: u64, digit: u8) -> u64
    requires { n ≤ 4294967296 }
    ensures { result ≡ held (n * 10 + digit) }
{
    CAP.min(n * 10 + u64::from(digit))
}

// The value of digits, in one pass, held at 2^32; none where a byte is no digit.
#[tactic(auto, using(crate::proofs::Laws::Decimal::digit_more, crate::proofs::Laws::Decimal::digit_none, crate::proofs::Laws::Decimal::digit_out))]
fn digits(s: &[u8]) -> Option<u64>
    ensures { result ≡ capped (read_on 0 s.now) }
{
    let mut n: u64 = 0;
    for &b in s {
        if Class::of(b) != Class::Digit {
            return None;
        }
        n = grown(n, b - b'0');
    }
    Some(n)
}

// Whether there is a first byte, and it is no zero before others.
#[tactic(auto, using(crate::proofs::Laws::Decimal::headed_none, crate::proofs::Laws::Decimal::headed_one, crate::proofs::Laws::Decimal::headed_more))]
fn headed(s: &[u8]) -> bool
    ensures { result ≡ headed s.now }
{
    match s {
        [] => false,
        [_] => true,
        [b, ..] => *b != b'0',
    }
}

// A number without a minus, held at 2^32 where it is more; none of a bad form.
#[tactic(auto, using(crate::proofs::Laws::Decimal::natural_headed, crate::proofs::Laws::Decimal::natural_unheaded))]
pub fn natural(n: &[u8]) -> Option<u64>
    ensures { result ≡ capped (natural n.now) }
{
    if headed(n) { digits(n) } else { None }
}

// The least number of 32 bits is -2^31; a number's word is 2^31 more than the number.
const BIAS: u64 = values::ZERO as u64;

// The word of a number; none where it is out of range.
fn plain_word(n: u64) -> Option<u32>
    ensures { result ≡ plain_word n }
{
    if n < BIAS {
        Some((BIAS + n) as u32)
    } else {
        None
    }
}

// The word of a number after its minus; none where it is out of range, and `-0` is none.
fn minus_word(n: u64) -> Option<u32>
    ensures { result ≡ minus_word n }
{
    match n {
        1..=BIAS => Some((BIAS - n) as u32),
        _ => None,
    }
}

// A number with or without a minus, in 32 bits, as its word; none of a bad form or out of range.
#[tactic(auto, using(crate::proofs::Laws::Decimal::worded_plain, crate::proofs::Laws::Decimal::worded_minus, crate::proofs::Laws::Decimal::integer_minus, crate::proofs::Laws::Decimal::integer_plain))]
pub fn integer(n: &[u8]) -> Option<u32>
    ensures { result ≡ worded (integer n.now) }
{
    if class_at(n, 0) == Some(Class::Minus) {
        minus_word(natural(&n[1..])?)
    } else {
        plain_word(natural(n)?)
    }
}
