// The check that open, load and replay begin with: what is named is good, and the room is long enough.

#![tactic(auto)]

ghost use Rattle.std.specs.Prelude.{◌≡◌, []};
ghost use Rattle.rule.specs.Calls.{admitted, kept};
ghost use Rattle.admission.specs.Admission.{admission};

use openings::{kept, size_good};
use rule::{Opening, Refusal, SLOT, Settings};
use settings::{edition_good, gaps_good, needed};

// The settings to keep and the slots that are needed.
#[derive(Clone, Copy)]
pub struct Admitted {
    pub settings: Settings,
    pub slots: usize,
}

// Refusals 16, 1, 2 and 3.
pub fn admit(named: Opening, room: &[i64]) -> Result<Admitted, Refusal>
    ensures { result ≡ admission (kept named) (admitted named room.now (Ok [])) }
{
    if !edition_good(named.edition) {
        return Err(Refusal::Edition);
    }
    let size = named.size;
    if !size_good(size) {
        return Err(Refusal::Steps);
    }
    let s = kept(named);
    let kind = s.kind;
    if !gaps_good(kind, s.gaps) {
        return Err(Refusal::Gaps);
    }
    let slots = needed(s);
    if room.len() < SLOT * slots {
        return Err(Refusal::Room);
    }
    Ok(Admitted { settings: s, slots })
}
