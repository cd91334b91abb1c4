// Signed 32-bit integers as words, and the seven operations on them. The word w stands for w - 2^31 (specs/Word.antt), so that
// words compare, count and step as their values do. An operation is exact on 64 bits and then held to 32.
#![tactic(auto)]

ghost use Rattle.std.specs.Prelude.{◌≡◌, pos, ◌+ℤ◌, ◌-ℤ◌, ◌*ℤ◌, IfOk, IfErr};
ghost use Rattle.std.specs.Int.Signed.{quot_z};
ghost use Rattle.specification.specs.Arithmetic.{fit, divided, floor_z, remains};
ghost use Rattle.values.specs.Word.{signed, Narrow};
ghost use Rattle.values.specs.Packed.{packed, kind_of};
ghost use Rattle.values.specs.declared.Fault.TheVariants.{ZeroDivisor};
ghost use Rattle.values.specs.Rounded.{opposite, rounded_down};

pub mod exact;

// The ends of 32 bits.
const LEAST: i64 = -2147483648;

const GREATEST: i64 = 2147483647;

// The word of 0, and what a word has above its value.
pub const ZERO: u32 = 2147483648;

const BIAS: i64 = ZERO as i64;

// Why an operation has no value.
#[derive(Clone, Copy, Debug, PartialEq, Eq)]
pub enum Fault {
    Outside,
    ZeroDivisor,
}

// The number of the error kind.
impl From<Fault> for u32 {
    ghost from_gives = { λ fault kind. kind ≡ kind_of fault };

    fn from(fault: Fault) -> u32 {
        match fault {
            Fault::Outside => 2,
            Fault::ZeroDivisor => 3,
        }
    }
}

// The value of a word. Words stay plain u32s, and no type of their own: they stand among other words in the memory that is lent.
fn widen(w: u32) -> i64
    ensures { result ≡ signed w }
{
    i64::from(w) - BIAS
}

// The word of a value, if 32 bits hold it.
fn pack(z: i64) -> Result<u32, Fault>
    ensures { result ≡ packed (fit z) }
{
    if !(LEAST..=GREATEST).contains(&z) {
        return Err(Fault::Outside);
    }
    Ok((z + BIAS) as u32)
}

// The value of a divisor.
fn divisor(y: u32) -> Result<i64, Fault>
    ensures ok { IfOk result (λ z. (z ≡ signed y) × ¬ (signed y ≡ pos 0)) }
    ensures err { IfErr result (λ e. (e ≡ ZeroDivisor) × (signed y ≡ pos 0)) }
{
    if y == ZERO {
        return Err(Fault::ZeroDivisor);
    }
    Ok(widen(y))
}

pub fn add(x: u32, y: u32) -> Result<u32, Fault>
    ensures { result ≡ packed (fit (signed x +ℤ signed y)) }
{
    pack(widen(x) + widen(y))
}

pub fn sub(x: u32, y: u32) -> Result<u32, Fault>
    ensures { result ≡ packed (fit (signed x -ℤ signed y)) }
{
    pack(widen(x) - widen(y))
}

pub fn mul(x: u32, y: u32) -> Result<u32, Fault>
    ensures { result ≡ packed (fit (signed x *ℤ signed y)) }
{
    pack(widen(x) * widen(y))
}

// Toward zero. Only -2,147,483,648 by -1 is outside 32 bits.
pub fn quotient(x: u32, y: u32) -> Result<u32, Fault>
    ensures { result ≡ packed (divided (signed y) (fit (quot_z (signed x) (signed y)))) }
{
    pack(widen(x) / divisor(y)?)
}

// What the quotient leaves, with the dividend's sign; for -2,147,483,648 by -1 that is 0.
pub fn remainder(x: u32, y: u32) -> Result<u32, Fault>
    ensures { result ≡ packed (divided (signed y) (fit (remains (signed x) (signed y) (quot_z (signed x) (signed y))))) }
{
    pack(widen(x) % divisor(y)?)
}

// Whether one is below 0 and the other above.
fn opposite(x: i64, y: i64) -> bool
    ensures { result ≡ opposite x y }
{
    x < 0 && 0 < y || 0 < x && y < 0
}

// A quotient rounded down, and what it leaves.
#[derive(Clone, Copy)]
struct Divided {
    quotient: i64,
    rest: i64,
}

// One less than toward zero where that leaves a rest on the other side of 0 than the divisor. It has several callers, so that the compiler keeps it
// out of the loop over a term's tokens, where every subtraction would cost an instruction more.
fn rounded(x: i64, y: i64) -> Divided
    requires { Narrow x × Narrow y × ¬ (y ≡ pos 0) }
    ensures { result ≡ rounded_down x y }
{
    let quotient = x / y;
    let rest = x % y;
    if opposite(rest, y) {
        return Divided {
            quotient: quotient - 1,
            rest: rest + y,
        };
    }
    Divided { quotient, rest }
}

// Rounding down. Only -2,147,483,648 by -1 is outside 32 bits.
pub fn floor(x: u32, y: u32) -> Result<u32, Fault>
    ensures { result ≡ packed (divided (signed y) (fit (floor_z (signed x) (signed y)))) }
{
    pack(rounded(widen(x), divisor(y)?).quotient)
}

// What rounding down leaves, with the divisor's sign.
pub fn modulus(x: u32, y: u32) -> Result<u32, Fault>
    ensures { result ≡ packed (divided (signed y) (fit (remains (signed x) (signed y) (floor_z (signed x) (signed y))))) }
{
    pack(rounded(widen(x), divisor(y)?).rest)
}
