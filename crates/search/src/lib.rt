// The search through a computation tree, over planned tables: its registers. What is due is a token, by the number of its first word: of a
// formula, of an `all`'s local where the `all` comes first again, of a procedure's frame where its formula has ended, or of no formula
// (tables::leaves). A node that has something to do later, or to take back, leaves a record on the path; the others leave nothing. What
// registers and words mean is in specs/, the laws of every step in proofs/; the code is the crate `walker`.
#![tactic(auto)]

use specification::Tallies;

// What is to be done next. The loop is left where no visit is due and no son is finished.
#[derive(Clone, Copy, Debug, PartialEq, Eq)]
pub enum Mode {
    // A limit is reached.
    Stopped,
    // A visit is due.
    Down,
    // A son is finished.
    Up,
    // An inner tree has succeeded.
    Won,
    // A leaf of the main tree is visited that has a block.
    Block,
    // All is visited.
    Done,
    // There is no room for a block: the walk is over.
    Full,
}

// Whether the present tree has had an error leaf. (No bool: to carry one takes four instructions more a node.)
#[derive(Clone, Copy, Debug, PartialEq, Eq)]
pub enum Errors {
    Unseen,
    Seen,
}

// Which tally a leaf of the main tree adds to.
#[derive(Clone, Copy, Debug, PartialEq, Eq)]
pub enum Tally {
    Answer,
    Error,
    Failure,
}

// `due`: what is visited next; `depth`: how many nodes the path has; `stop`: the depth at which a limit is reached; `from`: the depth since which
// the tallies lack the visits; `top`: where the records end; `inner`: the present tree and what it has given to places outside (specs/States.antt;
// a number, since a place's mark is compared with it); the tallies as of the last leaf; `mode`: what is to be done next; `bad`: whether the present
// tree has had an error leaf. (The fields of one byte stand last: with gaps between the fields the compiler moves the gaps too, and a node takes
// twice the instructions.)
#[derive(Clone, Copy)]
pub struct Go {
    pub due: u32,
    pub depth: u32,
    pub stop: u32,
    pub from: u32,
    pub top: usize,
    pub inner: u32,
    pub tallies: Tallies,
    pub mode: Mode,
    pub bad: Errors,
}
