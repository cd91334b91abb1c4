// The operations on words in 64 bits. A result stays above the bias and is not held to 32 bits, so that it is a word where there is a value, and no
// word where there is none (specs/Shifted.antt): a caller tests it once.
ghost use Rattle.std.specs.Prelude.{◌≡◌, pos, IfSome, IfNone};
ghost use Rattle.specification.specs.Ast.{add, sub, mul, quo, rem, div, modulo};
ghost use Rattle.specification.specs.Arithmetic.{compute};
ghost use Rattle.values.specs.Shifted.{IsWord, value_of, Shifted};

use crate::{BIAS, rounded};

// No word. (An Option would be tested once more in each operation of the walk.)
const NONE: i64 = -1;

pub fn sum(a: i64, b: i64) -> i64
    requires { IsWord a × IsWord b }
    ensures { Shifted (compute add (value_of a) (value_of b)) result }
{
    a + b - BIAS
}

pub fn difference(a: i64, b: i64) -> i64
    requires { IsWord a × IsWord b }
    ensures { Shifted (compute sub (value_of a) (value_of b)) result }
{
    a - b + BIAS
}

pub fn product(a: i64, b: i64) -> i64
    requires { IsWord a × IsWord b }
    ensures { Shifted (compute mul (value_of a) (value_of b)) result }
{
    (a - BIAS) * (b - BIAS) + BIAS
}

// The value of a divisor, if it is not 0.
fn divisor(b: i64) -> Option<i64>
    requires { IsWord b }
    ensures some { IfSome result (λ y. (y ≡ value_of b) × ¬ (value_of b ≡ pos 0)) }
    ensures none { IfNone result (value_of b ≡ pos 0) }
{
    (b != BIAS).then_some(b - BIAS)
}

// Toward zero.
pub fn quotient(a: i64, b: i64) -> i64
    requires { IsWord a × IsWord b }
    ensures { Shifted (compute quo (value_of a) (value_of b)) result }
{
    let Some(y) = divisor(b) else {
        return NONE;
    };
    (a - BIAS) / y + BIAS
}

// What the quotient leaves.
pub fn remainder(a: i64, b: i64) -> i64
    requires { IsWord a × IsWord b }
    ensures { Shifted (compute rem (value_of a) (value_of b)) result }
{
    let Some(y) = divisor(b) else {
        return NONE;
    };
    (a - BIAS) % y + BIAS
}

// Rounding down.
pub fn floor(a: i64, b: i64) -> i64
    requires { IsWord a × IsWord b }
    ensures { Shifted (compute div (value_of a) (value_of b)) result }
{
    let Some(y) = divisor(b) else {
        return NONE;
    };
    rounded(a - BIAS, y).quotient + BIAS
}

// What rounding down leaves.
pub fn modulus(a: i64, b: i64) -> i64
    requires { IsWord a × IsWord b }
    ensures { Shifted (compute modulo (value_of a) (value_of b)) result }
{
    let Some(y) = divisor(b) else {
        return NONE;
    };
    rounded(a - BIAS, y).rest + BIAS
}
