// The picture program as one definition, in specs/, and the same read in pieces; here only the type that the reader of the caption has.

#![tactic(auto)]

// How many bytes of the caption are kept, how many of the last piece belong to its line, and whether that line has ended.
#[derive(Clone, Copy)]
pub struct Heading {
    pub filled: usize,
    pub taken: usize,
    pub ended: bool,
}
