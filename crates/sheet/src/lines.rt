// What the readers of lines share: bytes that are due, numbers, and the line with one number. Each gives what it read with the place after
// it, or a refusal. They take the slice and a place apart, as document 01 asks of what lies under the one reader (src/reader.rt).
ghost use Rattle.std.specs.Prelude.{◌≡◌, ◌<◌, ◌≤◌, length, drop, IfOk};
ghost use Rattle.specification.specs.Bytes.{run, in_number};
ghost use Rattle.text.specs.Class.{specified};
ghost use Rattle.specification.specs.Refusals.{reason_number};
ghost use Rattle.specification.specs.Parser.{exactly, key, next, mark};
ghost use Rattle.specification.specs.Lines.{index, count, value};
ghost use Rattle.sheet.specs.Reader.{line_at};
ghost use Rattle.sheet.specs.Answers.{number_to, held_index, value_read, word_read, place_read};

use specification::{Reason, Refusal};
use text::{Class, Run};

// ---- bytes that are due, and the place after them

// These bytes; others are refused for the reason.
pub(crate) fn exactly(s: &[u8], at: usize, bytes: &[u8], reason: Reason) -> Result<usize, Refusal>
    ensures { place_read tt s.now result ≡ exactly (reason_number reason) bytes.now (line_at s.now at) }
{
    if text::begins(s, at, bytes) {
        Ok(at + bytes.len())
    } else {
        Err(Refusal::new(reason, at))
    }
}

// A line's key.
pub(crate) fn key(s: &[u8], at: usize, bytes: &[u8]) -> Result<usize, Refusal>
    ensures { place_read tt s.now result ≡ key bytes.now (line_at s.now at) }
{
    exactly(s, at, bytes, Reason::Key)
}

// Whether a byte of the class comes next.
pub(crate) fn sees(s: &[u8], at: usize, class: Class) -> bool
    ensures { result ≡ next (specified class) (drop at s.now) }
{
    text::class_at(s, at) == Some(class)
}

// A byte of the class.
pub(crate) fn mark(s: &[u8], at: usize, class: Class) -> Result<usize, Refusal>
    ensures within { IfOk result (λ e. e ≤ length s.now) }
    ensures reading { place_read tt s.now result ≡ mark (specified class) (line_at s.now at) }
{
    if sees(s, at, class) {
        Ok(at + 1)
    } else {
        Err(Refusal::new(Reason::Byte, at))
    }
}

// ---- numbers

// 2^32 - 1, which is above every limit of a sheet.
const MOST: u64 = 4294967295;

// The run of digits and minus signs at a place.
fn numeral(s: &[u8], at: usize) -> &[u8]
    ensures { result.now ≡ run in_number (drop at s.now) }
{
    let v = text::value(s, at);
    let e = text::run_end(v, 0, Run::Number);
    &v[..e]
}

// A number without a minus, held at 2^32 - 1 where it is more.
pub(crate) fn index_at(s: &[u8], at: usize) -> Result<(u32, usize), Refusal>
    ensures { value_read s.now result ≡ held_index (index (line_at s.now at)) }
{
    let d = numeral(s, at);
    match text::natural(d) {
        None => Err(Refusal::new(Reason::Number, at)),
        Some(n) => Ok((MOST.min(n) as u32, at + d.len())),
    }
}

// A value's word.
pub(crate) fn integer_at(s: &[u8], at: usize) -> Result<(u32, usize), Refusal>
    ensures { word_read s.now result ≡ value (line_at s.now at) }
{
    let d = numeral(s, at);
    match text::integer(d) {
        None => Err(Refusal::new(Reason::Number, at)),
        Some(w) => Ok((w, at + d.len())),
    }
}

// A number within its limits.
pub(crate) fn count_at(s: &[u8], at: usize, lo: u32, hi: u32) -> Result<(u32, usize), Refusal>
    requires { hi < 4294967295 }
    ensures { value_read s.now result ≡ count lo hi (line_at s.now at) }
{
    let (n, e) = index_at(s, at)?;
    if n < lo || hi < n {
        return Err(Refusal::new(Reason::Number, at));
    }
    Ok((n, e))
}

// ---- a key and a number, up to the mark of a class: of a line with one number that is the line feed

pub(crate) fn count_line(
    s: &[u8],
    at: usize,
    bytes: &[u8],
    lo: u32,
    hi: u32,
    class: Class,
) -> Result<(u32, usize), Refusal>
    requires { hi < 4294967295 }
    ensures within { IfOk result (λ r. r.1 ≤ length s.now) }
    ensures reading { value_read s.now result ≡ number_to bytes.now lo hi (specified class) (line_at s.now at) }
{
    let from = key(s, at, bytes)?;
    let (n, e) = count_at(s, from, lo, hi)?;
    Ok((n, mark(s, e, class)?))
}
