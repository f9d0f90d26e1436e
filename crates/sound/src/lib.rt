// Whether state and room are sound, for any state fields and any numbers.

#![tactic(auto, using(crate::proofs::Clauses::limits))]

ghost use Rattle.std.specs.Prelude.{◌≡◌};
ghost use Rattle.rule.specs.Room.{sound};

use passes::{all_zero, scan};
use rule::{MOST_BASE, SLOT, State};
use settings::{bounded, edition_good, gaps_good, limit, needed, runs_allowed};

// State and room are sound.
pub fn sound(s: State, room: &[i64]) -> bool
    ensures { result ≡ sound s room.now }
{
    let settings = s.settings;
    let kind = settings.kind;
    edition_good(settings.edition)
        && bounded(settings.base, MOST_BASE)
        && gaps_good(kind, settings.gaps)
        && runs_allowed(kind, settings.gaps, s.runs)
        && SLOT * needed(settings) <= room.len()
        && s.used <= limit(settings, s.runs)
        && scan(kind, s.used, s.runs, s.readings, room)
        && all_zero(room, SLOT * s.used, SLOT * needed(settings))
}
