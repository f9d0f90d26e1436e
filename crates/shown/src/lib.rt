// The answers of those that look at a trace, as plain records for other languages.

#![tactic(auto)]

ghost use Rattle.std.specs.Prelude.{◌≡◌};
ghost use Rattle.plain.specs.Plain.{erring, pointing, showing};

use over::Sought;
use plain::{Hit, Shown, WorstError};
use rule::{Found, Refusal};

pub fn showing(f: Result<Found, Refusal>) -> Shown
    ensures { result ≡ showing f }
{
    match f {
        Ok(
            Found {
                level,
                error,
                least,
                largest,
            },
        ) => Shown {
            refusal: 0,
            place: 0,
            level,
            error,
            least,
            largest,
        },
        Err(r) => Shown {
            refusal: refusal::number(r),
            place: refusal::place(r),
            level: 0,
            error: 0,
            least: 0,
            largest: 0,
        },
    }
}

pub fn pointing(s: Result<Option<Sought>, Refusal>) -> Hit
    ensures { result ≡ pointing s }
{
    match s {
        Ok(Some(Sought { index, start })) => Hit {
            refusal: 0,
            place: 0,
            found: 1,
            index,
            start,
        },
        Ok(None) => Hit {
            refusal: 0,
            place: 0,
            found: 0,
            index: 0,
            start: 0,
        },
        Err(r) => Hit {
            refusal: refusal::number(r),
            place: refusal::place(r),
            found: 0,
            index: 0,
            start: 0,
        },
    }
}

pub fn erring(m: Result<u32, Refusal>) -> WorstError
    ensures { result ≡ erring m }
{
    match m {
        Ok(greatest) => WorstError {
            refusal: 0,
            place: 0,
            error: greatest,
        },
        Err(r) => WorstError {
            refusal: refusal::number(r),
            place: refusal::place(r),
            error: 0,
        },
    }
}
