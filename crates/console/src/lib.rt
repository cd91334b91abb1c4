// Standard input and output for the programs. Nothing here holds a buffer: the box has 64 KB in all. A read or a write that fails, or
// that a signal interrupts before it moves a byte, ends what it stands in, and nothing is written after a byte that was lost.
#![tactic(auto)]

ghost use Rattle.std.specs.Prelude.{◌≡◌, ◌+◌, ◌≤◌, ◌++◌, Some, codes, decimal, length, take};
ghost use Rattle.console.specs.Went.{Went};

use std::error::Error;
use std::fmt;
use std::io::Read;

// A byte was lost, after so many that went out.
#[derive(Clone, Copy, Debug, PartialEq, Eq)]
pub struct Lost {
    pub sent: usize,
}

impl fmt::Display for Lost {
    ghost output = { λ lost. Some (codes "a byte was lost after " ++ decimal lost.sent) };

    fn fmt<W: fmt::Write>(&self, f: &mut fmt::Formatter<W>) -> fmt::Result {
        write!(f, "a byte was lost after {}", self.sent)
    }
}

impl Error for Lost {}

// Reads until `bytes` is full or the input ends: how many bytes were read. A read that fails ends the input, and is no error.
pub fn read(input: &mut impl Read, bytes: &mut [u8]) -> usize
    ensures room { result ≤ length bytes.new }
    ensures first { result ≡ length (take result bytes.new) }
{
    // A place and no iterator, here and in `write`: each call tells how many bytes it moved.
    let mut filled = 0;
    while filled < bytes.len() {
        let got = input.read(&mut bytes[filled..]).unwrap_or(0);
        if got == 0 {
            return filled;
        }
        filled += got;
    }
    filled
}

// Writes the bytes: how many they are, which no contract could say of `()`, so that a writer which gives up cannot tell that all went out.
pub fn write(rt: &impl Print, bytes: &[u8]) -> Result<usize, Lost>
    ensures { Went (length bytes.now) result }
{
    let mut sent = 0;
    while sent < bytes.len() {
        let put = rt.write_some(&bytes[sent..]).unwrap_or(0);
        if put == 0 {
            return Err(Lost { sent });
        }
        sent += put;
    }
    Ok(sent)
}

// Writes a page: the listing and then, if all of it went out, the lines after it.
pub fn write_page(rt: &impl Print, listing: &[u8], closing: &[u8]) -> Result<usize, Lost>
    ensures { Went (length listing.now + length closing.now) result }
{
    let listed = write(rt, listing)?;
    match write(rt, closing) {
        Ok(closed) => Ok(listed + closed),
        Err(lost) => Err(Lost {
            sent: listed + lost.sent,
        }),
    }
}
