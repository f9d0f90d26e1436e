// The reading of the listing's input begun, and whether it has ended.

#![tactic(auto)]

ghost use Rattle.std.specs.Prelude.{◌≡◌};
ghost use Rattle.listing.specs.Feeding.{fresh, has_ended};

use listing::{EDITION, Feeding, Stage};
use rule::Size;
use trace::Trace;

// B where no line names it. Nothing else has a default.
const DEFAULT_STEPS: usize = 64;

// A trace of the default steps, with nothing read.
pub fn begin(room: &mut [i64]) -> Feeding
    ensures { (result, room.new) ≡ fresh room.old }
{
    let last = Trace::open(
        openings::in_order(Size::Steps(DEFAULT_STEPS), EDITION),
        &mut *room,
    );
    Feeding {
        last,
        stage: Stage::Nothing,
        lines: 0,
        filled: 0,
    }
}

// Whether a line was refused: nothing more need be read.
pub fn ended(f: Feeding) -> bool
    ensures { result ≡ has_ended f.last }
{
    f.last.is_err()
}
