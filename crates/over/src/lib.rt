// What the search for the first bucket over a bar finds. What is over, and which is the first, is in specs/.

#![tactic(auto)]

// The index of a bucket from 0 and its start tick.
#[derive(Clone, Copy)]
pub struct Sought {
    pub index: usize,
    pub start: u32,
}
