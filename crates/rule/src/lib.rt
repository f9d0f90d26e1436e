// The types that every call speaks with. What is right stands in specs/, in document 01's words.

#![tactic(auto)]

// Ticks are 0 to one less than this.
pub const TICKS: usize = 16777216;
// B and K are 1 to this.
pub const MOST: usize = 256;
// The base limit C is 1 to this.
pub const MOST_BASE: usize = 512;
// Numbers of a slot: start, count, least, largest.
pub const SLOT: usize = 4;
// Bytes of a saved record.
pub const RECORD: usize = 16;
// An unsigned number of 32 bits is below this; of a signed one below 0 they say so much more.
pub const WORD: i64 = 4294967296;

// A start tick, a count of ticks, and the least and largest reading among exactly those ticks.
#[repr(C)]
#[derive(Clone, Copy)]
pub struct Bucket {
    pub start: u32,
    pub count: u32,
    pub least: i32,
    pub largest: i32,
}

// In order: the next reading takes the next tick. Late: each reading names its tick.
#[derive(Clone, Copy)]
pub enum Kind {
    InOrder,
    Late,
}

// How many steps a trace may have, as named: B, which stands for a base limit of 2B, or the base limit C itself.
#[derive(Clone, Copy)]
pub enum Size {
    Steps(usize),
    Base(usize),
}

// What a trace is opened, loaded or replayed with: its kind, B or C, K, and the edition of the tie rule.
#[derive(Clone, Copy)]
pub struct Opening {
    pub kind: Kind,
    pub size: Size,
    pub gaps: usize,
    pub edition: usize,
}

// What the state keeps of it: its kind, C, K and the edition.
#[derive(Clone, Copy)]
pub struct Settings {
    pub kind: Kind,
    pub base: usize,
    pub gaps: usize,
    pub edition: usize,
}

// The trace's state, handed back by each call.
#[derive(Clone, Copy)]
pub struct State {
    pub settings: Settings,
    pub used: usize,
    pub runs: usize,
    pub readings: usize,
}

// The refusals, in the order of their numbers. Only a record's has a place other than 0.
#[derive(Clone, Copy)]
pub enum Refusal {
    Steps,
    Gaps,
    Room,
    Unsound,
    Kind,
    Tick,
    Length,
    Record(usize),
    Runs,
    Overfull,
    Taken,
    Absent,
    Short,
    Line,
    Caption,
    Edition,
}

// What lookup finds: the holding bucket's level, error, least and largest.
#[derive(Clone, Copy)]
pub struct Found {
    pub level: i32,
    pub error: u32,
    pub least: i32,
    pub largest: i32,
}

// The session tally. Each count stops at the largest u32.
#[repr(C)]
#[derive(Clone, Copy)]
pub struct Tally {
    pub accepted: u32,
    pub refused: u32,
    pub merges: u32,
}
