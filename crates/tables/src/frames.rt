// Frames of procedures (specs/Frames.antt): where they are, and the words before their arguments.
ghost use Rattle.std.specs.Prelude.{◌≡◌, ◌+◌, ◌<◌, ◌≤◌, length, set};
ghost use Rattle.tables.specs.Layout.{max_procs, max_parameters};
ghost use Rattle.tables.specs.Frames.{frame_slot, argument_slot, back_at, call_at, tags_at};
ghost use Rattle.tables.specs.Leaves.{return_code};

use crate::leaves::RETURN_CODE;
use crate::{entry, set_entry, slots};

pub const FRAMES: usize = 5781;

const FRAME_WORDS: usize = 20;

// Which word of a frame is which.
const RETURN: usize = 0;

const BACK: usize = 1;

const CALL: usize = 2;

const TAGS: usize = 3;

// The numbers of first words, as words hold them (slots.rt).
pub const FIRST: u32 = FRAMES as u32;

pub const WORDS: u32 = FRAME_WORDS as u32;

// The first of its arguments' words.
const HEAD_WORDS: u32 = 4;

// The first word of the frame of procedure k.
pub fn place(k: u32) -> u32
    requires { k ≤ max_procs }
    ensures { result ≡ frame_slot k }
{
    FIRST + WORDS * k
}

// The slot of its parameter n.
pub fn argument(k: u32, n: u32) -> u32
    requires { (k ≤ max_procs) × (n ≤ max_parameters) }
    ensures { result ≡ argument_slot k n }
{
    place(k) + HEAD_WORDS + slots::WORDS * n
}

// What comes after the call.
pub fn back(w: &[u32], k: u32) -> u32
    requires { frame_slot k + 1 < length w.now }
    ensures { result ≡ back_at w.now k }
{
    entry::<FRAMES, FRAME_WORDS, BACK>(w, k)
}

// The call's token.
pub fn call(w: &[u32], k: u32) -> u32
    requires { frame_slot k + 2 < length w.now }
    ensures { result ≡ call_at w.now k }
{
    entry::<FRAMES, FRAME_WORDS, CALL>(w, k)
}

// Which arguments are no values.
pub fn tags(w: &[u32], k: u32) -> u32
    requires { frame_slot k + 3 < length w.now }
    ensures { result ≡ tags_at w.now k }
{
    entry::<FRAMES, FRAME_WORDS, TAGS>(w, k)
}

pub fn set_head(w: &mut [u32], k: u32, back: u32, call: u32, tags: u32)
    requires { frame_slot k + 3 < length w.old }
    ensures { w.new ≡ set (set (set w.old (frame_slot k + 1) back) (frame_slot k + 2) call) (frame_slot k + 3) tags }
{
    let at = FRAMES + FRAME_WORDS * (k as usize);
    w[at + BACK] = back;
    w[at + CALL] = call;
    w[at + TAGS] = tags;
}

// The token that the procedure's formula ends at.
pub fn set_return(w: &mut [u32], k: u32)
    requires { frame_slot k < length w.old }
    ensures { w.new ≡ set w.old (frame_slot k) return_code }
{
    set_entry::<FRAMES, FRAME_WORDS, RETURN>(w, k, RETURN_CODE);
}
