// The lent numbers, four to a slot: a slot read and a slot written.
// They are lent as plain numbers by callers in any language: so they are read and written by index.
// Each function asks for a slot that is there, `read` for one that holds a bucket, as it is in a sound trace.

#![tactic(auto, using(std::proofs::lemmas::Int::ints), unfolding(rule::specs::Room::slot_ranged, rule::specs::Room::within))]

ghost use Rattle.std.specs.Prelude.{◌≡◌, true, ◌*◌, ◌≤◌, suc, length};
ghost use Rattle.rule.specs.Numbers.{slot_width};
ghost use Rattle.rule.specs.Room.{slot, slot_ranged};
ghost use Rattle.rooms.specs.Slots.{put};

use rule::{Bucket, SLOT};

// The bucket in slot `at`.
pub fn read(room: &[i64], at: usize) -> Bucket
    requires { (slot_width * suc at ≤ length room.now) × (slot_ranged room.now at ≡ true) }
    ensures { result ≡ slot room.now at }
{
    let from = SLOT * at;
    Bucket {
        start: room[from] as u32,
        count: room[from + 1] as u32,
        least: room[from + 2] as i32,
        largest: room[from + 3] as i32,
    }
}

// Slot `at` holds the bucket.
pub fn write(room: &mut [i64], at: usize, b: Bucket)
    requires { slot_width * suc at ≤ length room.old }
    ensures { room.new ≡ put room.old at b }
{
    let from = SLOT * at;
    room[from] = b.start as i64;
    room[from + 1] = b.count as i64;
    room[from + 2] = b.least as i64;
    room[from + 3] = b.largest as i64;
}
