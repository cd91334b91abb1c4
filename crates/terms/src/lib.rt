// Terms over the tables in the work words: the values of terms, by one loop over their tokens, and the arguments of calls; nothing recurses.
#![tactic(auto)]

pub mod arguments;
pub mod calls;
pub mod evaluation;
pub mod kinds;
pub mod tags;

// What two terms are: of each a tag and a word, as tags.rt has them and says why.
#[derive(Clone, Copy)]
pub struct Sides {
    pub ltag: u32,
    pub rtag: u32,
    pub left: u32,
    pub right: u32,
}

// The results that are not used yet: the last one's tag and word (tags.rt), and where in the words the others end.
#[derive(Clone, Copy)]
pub(crate) struct Stack {
    pub tag: u32,
    pub value: u32,
    pub at: usize,
}
