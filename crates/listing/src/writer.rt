// Bytes and decimal numbers put into lent memory from a place on. Bytes beyond the memory's end are counted and not kept, so that a block
// is counted by the functions that write it. (Numbers are printed by hand: of a `write!` no clause says that it does not fail.)
//
// The functions of a cell's line, here and in cells.rt, are inlined: each loop then knows whether its cells are scalars or elements, and the place stays
// in a register. With `cell` alone inlined a listing of scalars takes up to 1.4 times the instructions.
ghost use Rattle.std.specs.Prelude.{◌≡◌, ◌+◌, [], ◌∷◌, length, slice_set};
ghost use Rattle.std.proofs.lemmas.List.Edits.{sets};
ghost use Rattle.specification.specs.Number.{printℕ, printℤ};
ghost use Rattle.specification.specs.Printed.{field_text};
ghost use Rattle.values.specs.Word.{signed};
ghost use Rattle.listing.specs.Put.{Room, Put, Writes, end_text};

use values::ZERO;

// The memory, and the place of the next byte.
#[derive(Drop)]
pub struct Writer<'a> {
    pub memory: &'a mut [u8],
    pub at: usize,
}

impl<'a> Writer<'a> {
    // At the start of the memory.
    pub fn new(memory: &'a mut [u8]) -> Writer<'a>
        ensures lent { result.memory.ghost_name ≡ memory.entry.ghost_name }
        ensures held { result.memory.now ≡ memory.old }
        ensures start { result.at ≡ 0 }
    {
        Writer { memory, at: 0 }
    }

    // One byte.
    #[inline(always)]
    pub(crate) fn byte(&mut self, b: u8)
        requires { Room self.old.at (b ∷ []) }
        ensures { Writes self.old self.new (b ∷ []) }
    {
        store(self.memory, self.at, b);
        self.at += 1;
    }

    // Bytes as they stand.
    pub fn text(&mut self, bytes: &[u8])
        requires { Room self.old.at bytes.now }
        ensures { Writes self.old self.new bytes.now }
    {
        for b in bytes {
            self.byte(*b);
        }
    }

    // A decimal number; of one digit without a loop.
    #[inline(always)]
    pub fn number(&mut self, n: u64)
        requires { Room self.old.at (printℕ n) }
        ensures { Writes self.old self.new (printℕ n) }
    {
        if n < 10 {
            return self.byte(b'0' + n as u8);
        }
        let end = self.at + digits(n);
        fill(self.memory, self.at, end, n);
        self.at = end;
    }

    // The value of a word, with its sign.
    #[inline(always)]
    pub(crate) fn value(&mut self, word: u32)
        requires { Room self.old.at (printℤ (signed word)) }
        ensures { Writes self.old self.new (printℤ (signed word)) }
    {
        if word < ZERO {
            self.byte(b'-');
            self.number((ZERO - word) as u64);
        } else {
            self.number((word - ZERO) as u64);
        }
    }

    // What stands after a cell's name: an equals sign, the value of a word and a line feed.
    #[inline(always)]
    pub(crate) fn ending(&mut self, word: u32)
        requires { Room self.old.at (end_text word) }
        ensures { Writes self.old self.new (end_text word) }
    {
        self.byte(b'=');
        self.value(word);
        self.byte(b'\n');
    }

    // A key with its equals sign, a number and a line feed.
    pub fn field(&mut self, key: &[u8], n: u64)
        requires { Room self.old.at (field_text key.now n) }
        ensures { Writes self.old self.new (field_text key.now n) }
    {
        self.text(key);
        self.number(n);
        self.byte(b'\n');
    }
}

// A byte at a place, if there is one.
fn store(memory: &mut [u8], place: usize, byte: u8)
    ensures { memory.new ≡ slice_set memory.old place byte }
{
    if place < memory.len() {
        memory[place] = byte;
    }
}

// How many digits n has. (The library has no ilog10.)
fn digits(n: u64) -> usize
    ensures { result ≡ length (printℕ n) }
{
    let mut left = n;
    let mut count = 1;
    while 10 <= left {
        left /= 10;
        count += 1;
    }
    count
}

// The digits of n between two places, from the last to the first; the first is what is left, so it needs no division.
fn fill(memory: &mut [u8], at: usize, end: usize, n: u64)
    requires { end ≡ at + length (printℕ n) }
    ensures { memory.new ≡ sets memory.old at (printℕ n) }
{
    if memory.len() <= at {
        return;
    }
    let mut left = n;
    for place in (at + 1..end).rev() {
        store(memory, place, b'0' + (left % 10) as u8);
        left /= 10;
    }
    store(memory, at, b'0' + left as u8);
}
