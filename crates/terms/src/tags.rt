// What the word of a result is (specs/Results.antt has the same numbers): a value's, the first of a bare place's slot, or an error kind. Tags and no
// enum with the word in it: that was tried, and the walk took up to 8 instructions in a hundred more, since such an enum moves as 64 bits.
pub const VALUE: u32 = 0;

pub const BARE: u32 = 1;

pub const ERROR: u32 = 2;
