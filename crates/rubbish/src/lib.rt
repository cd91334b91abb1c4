// For the test programs: what stands in lent memory before a case, and what must stand there after it.
#![tactic(auto)]

ghost use Rattle.std.specs.Prelude.{◌≡◌, ◌==◌, drop};
ghost use Rattle.std.specs.List.{list_all};

// The rubbish: what the words and the bytes that are lent are filled with.
pub const WORD: u32 = 0xDEADBEEF;

pub const BYTE: u8 = 0xA5;

// Whether all the words are zero.
pub fn is_zero(words: &[u32]) -> bool
    ensures { result ≡ list_all (λ word. word == 0) words.now }
{
    words.iter().all(|&word| word == 0)
}

// Whether the bytes from a place on still hold the rubbish.
pub fn is_kept(bytes: &[u8], from: usize) -> bool
    ensures { result ≡ list_all (λ byte. byte == BYTE) (drop from bytes.now) }
{
    bytes.iter().skip(from).all(|&byte| byte == BYTE)
}
