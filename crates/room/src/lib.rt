// What an accepted reading does to the room. It asks for slots that are there and hold buckets, as they are in a sound trace.

#![tactic(auto)]

ghost use Rattle.std.specs.Prelude.{◌≡◌, length};
ghost use Rattle.rule.specs.Room.{laid, table_of};
ghost use Rattle.rule.specs.Table.{accept, needed};
ghost use Rattle.rooms.specs.Steps.{Ready};

use inserted::cheapest_with;
use merges::insert_merged;
use moves::insert;
use rule::{Bucket, State};
use settings::limit;
use settle::settle;

// What an accepted reading does to the room: it goes to its place, and the cheapest neighbours are merged while the buckets are more than the limit; the first merge is made on the way in.
// Answers how many buckets there are then.
pub fn accept(s: State, room: &mut [i64], at: usize, runs: usize, tick: u32, value: i32) -> usize
    requires { Ready s room.old at runs tick value }
    ensures { (result ≡ length (accept s.settings (table_of s room.old) tick value)) × (room.new ≡ laid (needed s.settings) (accept s.settings (table_of s room.old) tick value) room.old) }
{
    let b = Bucket {
        start: tick,
        count: 1,
        least: value,
        largest: value,
    };
    let settings = s.settings;
    let used = s.used;
    if used < limit(settings, runs) {
        insert(&mut *room, used, at, b);
        return used + 1;
    }
    let place = cheapest_with(settings.edition, &*room, used, at, b);
    insert_merged(&mut *room, used, at, b, place);
    settle(settings, runs, &mut *room, used)
}
