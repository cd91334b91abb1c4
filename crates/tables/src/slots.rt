// The slots of cells and locals, each by the number of its first word, and how many words a slot and a token have: the numbers of lib.rt, where
// they are indices, as words of the lent memory hold them.
pub const CELLS: u32 = crate::CELLS as u32;

pub const LOCALS: u32 = crate::LOCALS as u32;

pub const WORDS: u32 = crate::SLOT_WORDS as u32;

pub const TOKEN: u32 = crate::TOKEN_WORDS as u32;
