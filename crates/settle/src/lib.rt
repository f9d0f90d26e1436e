// The cheapest neighbours merged while the buckets are more than the limit. It asks for slots that are there and hold buckets, as they are in a sound trace.

#![tactic(auto)]

ghost use Rattle.std.specs.Prelude.{◌≡◌, length};
ghost use Rattle.rule.specs.Room.{laid, slots};
ghost use Rattle.rule.specs.Table.{settle};
ghost use Rattle.rooms.specs.Steps.{Settling};

use cheapest::cheapest;
use lower::merge;
use rule::Settings;
use settings::limit;

// While the buckets are more than the limit, the cheapest neighbours are merged. Answers how many buckets are left; the slots freed are cleared.
pub fn settle(s: Settings, runs: usize, room: &mut [i64], used: usize) -> usize
    requires { Settling s runs room.old used }
    ensures { (result ≡ length (settle s (slots room.old 0 used))) × (room.new ≡ laid used (settle s (slots room.old 0 used)) room.old) }
{
    let edition = s.edition;
    let most = limit(s, runs);
    let mut left = used;
    while most < left {
        let at = cheapest(edition, &*room, left);
        merge(&mut *room, left, at);
        left -= 1;
    }
    left
}
