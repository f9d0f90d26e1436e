// Two neighbours become their union as another bucket comes into the table, which has as many buckets afterwards as before. Only slots between the two places move.
// Each function asks for slots that are there and hold buckets, as they are in a sound trace.

#![tactic(auto)]

ghost use Rattle.std.specs.Prelude.{◌≡◌, ◌<◌, suc};
ghost use Rattle.rule.specs.Room.{laid, slots};
ghost use Rattle.rule.specs.Table.{merge_at};
ghost use Rattle.rooms.specs.Slots.{Joining, put_at};

use lower::merge_before;
use raise::merge_after;
use rule::Bucket;
use slots::{read, write};

// The new bucket is to stand at place `at`; of the table with it, which is not in the room yet, the buckets at places `i` and `i + 1` become their union.
pub fn insert_merged(room: &mut [i64], used: usize, at: usize, b: Bucket, i: usize)
    requires { Joining room.old used at b × (i < used) }
    ensures { room.new ≡ laid used (merge_at i (put_at at b (slots room.old 0 used))) room.old }
{
    if i + 1 < at {
        merge_before(&mut *room, used, at, b, i);
    } else if i < at {
        merge_left(&mut *room, used, i, b);
    } else if i == at {
        merge_right(&mut *room, used, at, b);
    } else {
        merge_after(&mut *room, used, at, b, i);
    }
}

// The one before the new bucket, and the new bucket: no slot moves.
pub(crate) fn merge_left(room: &mut [i64], used: usize, i: usize, b: Bucket)
    requires { Joining room.old used (suc i) b }
    ensures { room.new ≡ laid used (merge_at i (put_at (suc i) b (slots room.old 0 used))) room.old }
{
    let before = read(&*room, i);
    write(&mut *room, i, bucket::union(before, b));
}

// The new bucket, and the one behind it: no slot moves.
pub(crate) fn merge_right(room: &mut [i64], used: usize, at: usize, b: Bucket)
    requires { Joining room.old used at b × (at < used) }
    ensures { room.new ≡ laid used (merge_at at (put_at at b (slots room.old 0 used))) room.old }
{
    let behind = read(&*room, at);
    write(&mut *room, at, bucket::union(b, behind));
}
