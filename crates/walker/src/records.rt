// The last word of a record tells its kind: a slot, with whether it had a value, or the token of an `or`, a `some`, an `all`, a `call`, a `not` or an
// `imp`. (A number and no enum: records lie in the lent words, and there is no heap for a stack of them.)

// Added to a slot that had a value; specs/Records of the search has the same number.
pub(crate) const HAD: u32 = 8192;

// Slots begin here, and tokens end.
pub(crate) const SLOTS: u32 = tables::CELLS as u32;
