// The records that answers become for other languages, and the answers of those that open, feed, save and load.

#![tactic(auto)]

ghost use Rattle.std.specs.Prelude.{◌≡◌};
ghost use Rattle.plain.specs.Plain.{replying, telling};

use fields::{Fields, fields_of};
use rule::Refusal;
use trace::Trace;

// Refusal 0 where the call was accepted: then the state is the next one, else the one that was given.
#[repr(C)]
#[derive(Clone, Copy)]
pub struct Reply {
    pub refusal: u32,
    pub place: usize,
    pub state: Fields,
}

// The trace that a replay leaves, and how many records were accepted and refused; zeros where it is refused.
#[repr(C)]
#[derive(Clone, Copy)]
pub struct Recount {
    pub refusal: u32,
    pub place: usize,
    pub state: Fields,
    pub accepted: usize,
    pub refused: usize,
}

// What a lookup shows; zeros where it is refused.
#[repr(C)]
#[derive(Clone, Copy)]
pub struct Shown {
    pub refusal: u32,
    pub place: usize,
    pub level: i32,
    pub error: u32,
    pub least: i32,
    pub largest: i32,
}

// Found is 1 where a bucket is over, then its index and its start; zeros where there is none, and where it is refused.
#[repr(C)]
#[derive(Clone, Copy)]
pub struct Hit {
    pub refusal: u32,
    pub place: usize,
    pub found: u32,
    pub index: usize,
    pub start: u32,
}

// How many buckets were written; 0 where it is refused.
#[repr(C)]
#[derive(Clone, Copy)]
pub struct Counted {
    pub refusal: u32,
    pub place: usize,
    pub buckets: usize,
}

// The worst error of a trace; 0 where it is refused.
#[repr(C)]
#[derive(Clone, Copy)]
pub struct WorstError {
    pub refusal: u32,
    pub place: usize,
    pub error: u32,
}

pub fn replying(given: Fields, a: Result<Trace, Refusal>) -> Reply
    ensures { result ≡ replying given a }
{
    match a {
        Ok(t) => Reply {
            refusal: 0,
            place: 0,
            state: fields_of(t.state),
        },
        Err(r) => Reply {
            refusal: refusal::number(r),
            place: refusal::place(r),
            state: given,
        },
    }
}

pub fn telling(w: Result<usize, Refusal>) -> Counted
    ensures { result ≡ telling w }
{
    match w {
        Ok(n) => Counted {
            refusal: 0,
            place: 0,
            buckets: n,
        },
        Err(r) => Counted {
            refusal: refusal::number(r),
            place: refusal::place(r),
            buckets: 0,
        },
    }
}
