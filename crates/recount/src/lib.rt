// The answer of a replay as a plain record for other languages.

#![tactic(auto)]

ghost use Rattle.std.specs.Prelude.{◌≡◌};
ghost use Rattle.plain.specs.Plain.{recounting};

use course::Fed;
use fields::{fields_of, none};
use plain::Recount;
use rule::Refusal;

pub fn recounting(a: Result<Fed, Refusal>) -> Recount
    ensures { result ≡ recounting a }
{
    match a {
        Ok(fed) => Recount {
            refusal: 0,
            place: 0,
            state: fields_of(fed.trace.state),
            accepted: fed.accepted,
            refused: fed.refused,
        },
        Err(r) => Recount {
            refusal: refusal::number(r),
            place: refusal::place(r),
            state: none(),
            accepted: 0,
            refused: 0,
        },
    }
}
