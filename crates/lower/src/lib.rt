// Two neighbours become their union, and slots behind them move down: as a bucket comes in behind them, and alone. Each number is stored once.
// Each function asks for slots that are there and hold buckets, as they are in a sound trace.

#![tactic(auto)]

ghost use Rattle.std.specs.Prelude.{◌≡◌, ◌+◌, ◌<◌};
ghost use Rattle.rule.specs.Numbers.{word};
ghost use Rattle.rule.specs.Room.{laid, slots};
ghost use Rattle.rule.specs.Table.{merge_at, readings};
ghost use Rattle.rooms.specs.Slots.{Filled, Joining, put_at};

use moves::down;
use rule::{Bucket, SLOT};
use slots::{read, write};

// Two before the new bucket: the slots between them and its place move down.
pub fn merge_before(room: &mut [i64], used: usize, at: usize, b: Bucket, i: usize)
    requires { Joining room.old used at b × (i + 1 < at) }
    ensures { room.new ≡ laid used (merge_at i (put_at at b (slots room.old 0 used))) room.old }
{
    let first = read(&*room, i);
    let second = read(&*room, i + 1);
    let from = SLOT * i + SLOT;
    let to = SLOT * at;
    down(&mut room[from..to], b);
    write(&mut *room, i, bucket::union(first, second));
}

// The buckets in slots `at` and `at + 1` become their union, those behind move down by one, and the slot that is left is cleared: an empty bucket comes in at the end.
pub fn merge(room: &mut [i64], used: usize, at: usize)
    requires { Filled room.old used × ((at + 1 < used) × (readings (slots room.old 0 used) < word)) }
    ensures { room.new ≡ laid used (merge_at at (slots room.old 0 used)) room.old }
{
    let empty = Bucket {
        start: 0,
        count: 0,
        least: 0,
        largest: 0,
    };
    merge_before(&mut *room, used, used, empty, at);
}
