// The words of a formula: from a token's bytes to its code and operand.
ghost use Rattle.std.specs.Prelude.{◌≡◌, ◌≤◌, ◌<◌, length, drop};
ghost use Rattle.std.proofs.Math.Option.{some as just};
ghost use Rattle.specification.specs.Number.{natural, integer};
ghost use Rattle.specification.specs.Words.{words, name_of, constant_of, word_of, number_of};
ghost use Rattle.sheet.specs.Codes.{token, index_word, token_of};
ghost use Rattle.sheet.specs.Packed.{packed, code_by, code_in, code_or_none, indexed, parameter_token};

use crate::Token;
use tables::codes;
use text::Run;

// The edition without procedures.
pub(crate) const FIRST_EDITION: u32 = 1;

// The first edition whose `div` and `mod` round down.
const FIRST_ROUNDING: u32 = 3;

// The numbers of the two words that mean other operations from that edition on.
const DIV: u64 = 0x1_76_69_64;

const MOD: u64 = 0x1_64_6f_6d;

// The number of at most four bytes: the first byte lowest, and a 1 above the last.
fn pack(t: &[u8]) -> u64
    requires { length t.now ≤ 4 }
    ensures { result ≡ packed t.now }
{
    let mut n: u64 = 1;
    for &b in t.iter().rev() {
        n = u64::from(b) + 256 * n;
    }
    n
}

// The code of a word of edition 1 by the number of its bytes, none for any other: two digits a byte, the last byte first, and a 1 before them.
#[tactic(auto, unfolding(crate::specs::Packed::code_by, crate::specs::Packed::packed, crate::specs::Codes::token_of, specification::specs::Words::common_words, specification::specs::Words::own_words, specification::specs::Words::words, specification::specs::Words::older_division))]
fn first_edition(word: u64) -> Option<u32>
    ensures { result ≡ code_or_none (code_by word (words 1)) }
{
    Some(match word {
        0x1_65_75_72_74 => codes::TRUE, // true
        0x1_64_6e_61 => codes::AND, // and
        0x1_72_6f => codes::OR, // or
        0x1_70_6d_69 => codes::IMP, // imp
        0x1_74_6f_6e => codes::NOT, // not
        0x1_71_65 => codes::EQ, // eq
        0x1_65_6e => codes::NE, // ne
        0x1_74_6c => codes::LT, // lt
        0x1_65_6c => codes::LE, // le
        0x1_74_67 => codes::GT, // gt
        0x1_65_67 => codes::GE, // ge
        0x1_78_65 => codes::EX, // ex
        0x1_65_6d_6f_73 => codes::SOME, // some
        0x1_6c_6c_61 => codes::ALL, // all
        0x1_64_64_61 => codes::ADD, // add
        0x1_62_75_73 => codes::SUB, // sub
        0x1_6c_75_6d => codes::MUL, // mul
        DIV => codes::QUO,
        MOD => codes::REM,
        _ => return None,
    })
}

// The same of edition 2.
#[tactic(auto, unfolding(crate::specs::Packed::code_by, crate::specs::Packed::packed, crate::specs::Codes::token_of, specification::specs::Words::common_words, specification::specs::Words::own_words, specification::specs::Words::words, specification::specs::Words::older_division))]
fn second_edition(word: u64) -> Option<u32>
    ensures { result ≡ code_or_none (code_by word (words 2)) }
{
    match word {
        0x1_6c_6c_61_63 => Some(codes::CALL), // call
        _ => first_edition(word),
    }
}

// And from edition 3 on: `div` and `mod` round down, and two words carry the older pair.
#[tactic(auto, unfolding(crate::specs::Packed::code_by, crate::specs::Packed::packed, crate::specs::Codes::token_of, specification::specs::Words::common_words, specification::specs::Words::own_words, specification::specs::Words::words, specification::specs::Words::older_division, specification::specs::Words::division))]
fn third_edition(word: u64) -> Option<u32>
    ensures { result ≡ code_or_none (code_by word (words 3)) }
{
    match word {
        DIV => Some(codes::DIV),
        MOD => Some(codes::MOD),
        0x1_6f_75_71 => Some(codes::QUO), // quo
        0x1_6d_65_72 => Some(codes::REM), // rem
        _ => second_edition(word),
    }
}

// The code of a word of the edition's set, none for any other bytes.
fn word_code(t: &[u8], edition: u32) -> Option<u32>
    ensures { result ≡ code_or_none (code_in t.now (words edition)) }
{
    if 4 < t.len() {
        return None;
    }
    let word = pack(t);
    if edition == FIRST_EDITION {
        return first_edition(word);
    }
    if edition < FIRST_ROUNDING {
        return second_edition(word);
    }
    third_edition(word)
}

impl Token {
    // The token of a word with no operand.
    fn word(code: u32) -> Token
        ensures { result ≡ token code 0 }
    {
        Token { code, operand: 0 }
    }
}

fn constant(t: &[u8]) -> Token
    ensures { result ≡ token_of (constant_of (integer t.now)) }
{
    match text::integer(t) {
        None => Token::word(codes::BAD_CONSTANT),
        Some(v) => Token {
            code: codes::CONSTANT,
            operand: v,
        },
    }
}

// An index, held at the largest word.
fn index_word(n: u64) -> u32
    ensures { result ≡ index_word n }
{
    u32::try_from(n).unwrap_or(u32::MAX)
}

// A name's token: what stands after its letter is the index.
fn index(code: u32, t: &[u8]) -> Token
    requires { 0 < length t.now }
    ensures { result ≡ indexed code (natural (drop 1 t.now)) }
{
    match text::natural(&t[1..]) {
        None => Token::word(codes::UNKNOWN),
        Some(n) => Token {
            code,
            operand: index_word(n),
        },
    }
}

// The token of pN, which is no word of edition 1.
fn parameter(t: &[u8], edition: u32) -> Token
    requires { 0 < length t.now }
    ensures { result ≡ parameter_token edition (natural (drop 1 t.now)) }
{
    if edition == FIRST_EDITION {
        return Token::word(codes::UNKNOWN);
    }
    index(codes::PARAMETER, t)
}

fn name(t: &[u8], edition: u32) -> Token
    requires { 0 < length t.now }
    ensures { result ≡ token_of (just (name_of edition t.now)) }
{
    match t[0] {
        b'v' => index(codes::SCALAR, t),
        b'l' => index(codes::LOCAL, t),
        b'a' => index(codes::ARRAY, t),
        b'p' => parameter(t, edition),
        _ => Token::word(codes::UNKNOWN),
    }
}

// The token that bytes spell under an edition.
pub(crate) fn lex(t: &[u8], edition: u32) -> Token
    ensures { result ≡ token_of (word_of edition t.now) }
{
    let [first, ..] = t else {
        return Token::word(codes::UNKNOWN);
    };
    if Run::Number.passes(*first) {
        return constant(t);
    }
    match word_code(t, edition) {
        Some(code) => Token::word(code),
        None => name(t, edition),
    }
}

// The token that bytes spell where a procedure's number is due.
pub(crate) fn number(t: &[u8]) -> Token
    ensures { result ≡ token_of (number_of t.now) }
{
    let [first, ..] = t else {
        return Token::word(codes::UNKNOWN);
    };
    if !Run::Number.passes(*first) {
        return Token::word(codes::UNKNOWN);
    }
    match text::natural(t) {
        None => Token::word(codes::BAD_CONSTANT),
        Some(n) => Token {
            code: codes::PROCEDURE,
            operand: index_word(n),
        },
    }
}
