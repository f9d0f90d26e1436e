// What a lookup answers. Nothing is written, and nothing is asked of a caller.

#![tactic(auto)]

ghost use Rattle.std.proofs.Math.Option.{some};
ghost use Rattle.std.specs.Prelude.{◌≡◌};
ghost use Rattle.rule.specs.Calls.{found, lookup_outcome};

use place::{find, held};
use rule::{Bucket, Found, Refusal, State, TICKS};
use slots::read;
use sound::sound;

pub(crate) fn found_in(b: Bucket) -> Found
    ensures { Ok result ≡ found (some b) }
{
    Found {
        level: bucket::level(b),
        error: bucket::error(b),
        least: b.least,
        largest: b.largest,
    }
}

// The holding bucket's level, error, least and largest.
pub fn lookup(s: State, room: &[i64], tick: u32) -> Result<Found, Refusal>
    ensures { result ≡ lookup_outcome s room.now tick }
{
    if !sound(s, room) {
        return Err(Refusal::Unsound);
    }
    if TICKS <= tick as usize {
        return Err(Refusal::Tick);
    }
    let at = find(room, s.used, tick);
    if !held(room, s.used, at, tick) {
        return Err(Refusal::Absent);
    }
    Ok(found_in(read(room, at - 1)))
}
