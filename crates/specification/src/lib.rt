// The types that the definitions in specs/ share with the code: the crate is what a reader must believe, and its laws are under proofs/.
#![tactic(auto)]

mod refusals;

pub use crate::refusals::{Reason, Refusal};

// A run's setting beside the lent memory: path limit, node budget, and how many blocks are skipped.
#[derive(Clone, Copy)]
pub struct Setting {
    pub path: u32,
    pub budget: u32,
    pub skip: u32,
}

// The way a run ended, with its number in a report.
#[derive(Clone, Copy)]
pub enum End {
    Done = 0,
    Spent = 1,
    Path = 2,
    Output = 3,
}

// The four tallies: visits, and the answer, error and failure leaves of the main tree.
#[derive(Clone, Copy)]
pub struct Tallies {
    pub nodes: u32,
    pub answers: u32,
    pub errors: u32,
    pub fails: u32,
}

// What is told of a run: how it ended, its tallies and the bytes written. A call gives it, or the refusal of its sheet.
#[derive(Clone, Copy)]
pub struct Ran {
    pub end: End,
    pub tallies: Tallies,
    pub written: usize,
}
