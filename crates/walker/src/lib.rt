// The walk of a computation tree over the tables of a sheet: what happens at each node, with records of the path in the work words and registers by
// value. What registers and words mean, and the laws of each step, are in the crate `search`.
#![tactic(auto)]

use search::Go;
use specification::Setting;

pub mod advance;
mod atoms;
mod calls;
mod climb;
mod connectives;
mod inner;
mod leaves;
pub mod machine;
mod quantifiers;
mod records;
mod registers;
mod sons;
mod tallies;
mod unvalued;
mod words;
// The words of a token, and which of them are its operand and what its plan says comes after it.
pub(crate) const TOKEN: u32 = tables::slots::TOKEN;

pub(crate) const OPERAND: u32 = 1;

pub(crate) const PLAN: u32 = 3;

// What a walk is about: its setting, how many scalars and arrays the tables in the work words have, and the token that its formula begins at.
#[derive(Clone, Copy)]
pub struct Task {
    pub setting: Setting,
    pub scalars: u32,
    pub arrays: u32,
    pub formula: u32,
}
// The registers of the search, and the bytes written.
#[derive(Clone, Copy)]
pub(crate) struct State {
    pub go: Go,
    pub written: usize,
}
