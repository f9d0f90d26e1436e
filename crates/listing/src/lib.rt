// The listing as one definition, in specs/, and the same read in pieces; here only the types that the reader has, and the edition that it opens with.

#![tactic(auto)]

use rule::Refusal;
use trace::Trace;

// The edition of published pages.
pub const EDITION: usize = 1;

// Which lines were read: none, `steps B`, `late K`, a reading.
#[derive(Clone, Copy)]
pub enum Stage {
    Nothing,
    Steps,
    Late,
    Readings,
}

// The last answer, which lines were read, how many, and how many bytes of the line begun.
#[derive(Clone, Copy)]
pub struct Feeding {
    pub last: Result<Trace, Refusal>,
    pub stage: Stage,
    pub lines: usize,
    pub filled: usize,
}
