// The answer of a picture as a plain record for other languages.

#![tactic(auto)]

ghost use Rattle.std.specs.Prelude.{◌≡◌};
ghost use Rattle.pictured.specs.Pictured.{picturing};

use rule::Refusal;

// How many bytes were written; 0 where it is refused.
#[repr(C)]
#[derive(Clone, Copy)]
pub struct Pictured {
    pub refusal: u32,
    pub place: usize,
    pub bytes: usize,
}

pub fn picturing(d: Result<usize, Refusal>) -> Pictured
    ensures { result ≡ picturing d }
{
    match d {
        Ok(n) => Pictured {
            refusal: 0,
            place: 0,
            bytes: n,
        },
        Err(r) => Pictured {
            refusal: refusal::number(r),
            place: refusal::place(r),
            bytes: 0,
        },
    }
}
