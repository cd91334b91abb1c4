// Error kinds (the specification's Arithmetic.antt has their names): numbers, since a kind stands in the lent words as any result does.
pub const NO_VALUE: u32 = 1;

pub const OUTSIDE_ARRAY: u32 = 4;

pub const UNDECIDED_INSIDE: u32 = 6;
