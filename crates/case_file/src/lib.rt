// What the test programs share, each of which goes through a file of cases: why one ends before its input does, numbers, and a line that tells one.
#![tactic(auto)]

ghost use Rattle.std.specs.Prelude.{◌≡◌, ◌≤◌, ◌<◌, length, fold};
ghost use Rattle.specification.specs.Printed.{field_text};
ghost use Rattle.console.specs.Went.{Went};
ghost use Rattle.case_file.specs.declared.Stop.TheVariants.{Lost};
ghost use Rattle.case_file.specs.Stop.{message};
ghost use Rattle.case_file.specs.Number.{value_of, grown};

use console::Lost;
use listing::Writer;

// Why a program ends before its input does.
#[derive(Clone, Copy, Debug, PartialEq, Eq)]
pub enum Stop {
    // No whole case stands at a place.
    Malformed,
    // More is asked for than there is, to be lent or to be printed.
    TooMuch,
    Lost(Lost),
}

impl From<Lost> for Stop {
    ghost from_gives = { λ byte stop. stop ≡ Lost byte };

    fn from(lost: Lost) -> Stop {
        Stop::Lost(lost)
    }
}

impl Stop {
    // The last that is printed: after a byte that was lost, nothing. (Bytes and no Display: the console writes bytes, and there is no heap.)
    pub fn message(self) -> &'static [u8]
        ensures { result.now ≡ message self }
    {
        match self {
            Stop::Malformed => b"malformed\n",
            Stop::TooMuch => b"",
            Stop::Lost(_) => b"",
        }
    }
}

// ---- numbers

// The number of some decimal digits; it stops growing at 32 bits.
pub fn number(digits: &[u8]) -> u32
    ensures { result ≡ fold grown 0 digits.now }
{
    digits.iter().fold(
        0u32,
        |number, &digit| number.saturating_mul(10).saturating_add(value(digit)),
    )
}

// The value of a digit, and 0 of any other byte, for which the programs take it. (`parse` takes a plus, and fails above 32 bits.)
fn value(digit: u8) -> u32
    ensures { result ≡ value_of digit }
{
    match digit {
        b'0'..=b'9' => u32::from(digit - b'0'),
        _ => 0,
    }
}

// The bytes of a field's line: a key of at most eight, twenty digits at most, a line feed.
const LINE: usize = 29;

// Puts a line of a key and a number at the start of the memory: where it ends.
fn field_line(line: &mut [u8; LINE], key: &[u8], n: u64) -> usize
    requires { length key.now ≤ 8 }
    ensures { result ≡ length (field_text key.now n) }
{
    let mut out = Writer::new(line);
    out.field(key, n);
    out.at
}

// Prints a line of a key and a number.
pub fn print_field(rt: &impl Print, key: &[u8], n: u64) -> Result<usize, Lost>
    requires { length key.now ≤ 8 }
    ensures { Went (length (field_text key.now n)) result }
{
    let mut line = [0u8; LINE];
    let end = field_line(&mut line, key, n);
    console::write(rt, &line[..end])
}
