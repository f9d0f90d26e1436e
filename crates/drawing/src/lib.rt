// The picture of a trace as one definition, in specs/; here only the type of what it shows.

#![tactic(auto)]

// What a picture shows: ticks from the first on, so many, and levels from the highest to the lowest.
#[derive(Clone, Copy)]
pub struct View {
    pub first: usize,
    pub span: usize,
    pub top: i32,
    pub low: i32,
}
