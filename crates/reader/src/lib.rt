// The end of the listing's input.

#![tactic(auto)]

ghost use Rattle.std.specs.Prelude.{◌≡◌};
ghost use Rattle.listing.specs.Feeding.{rest_fed};

use lines::line_ended;
use listing::Feeding;

// The input's end.
pub fn rest(f: Feeding, room: &mut [i64], line: &[u8]) -> Feeding
    ensures { (result, room.new) ≡ rest_fed f.last f room.old line.now }
{
    let last = f.last;
    let Ok(t) = last else {
        return f;
    };
    if f.filled == 0 {
        return f;
    }
    line_ended(f, t, &mut *room, line)
}
