// Slots moved by one. Nothing else knows how slots are moved: `down` and `up` are lent the part of the room in which slots move, and store each of its numbers once.
// Each function asks for numbers that are there, `insert` for slots that hold buckets, as they are in a sound trace.

#![tactic(auto, unfolding(rooms::specs::Slots::put))]

ghost use Rattle.std.specs.Prelude.{◌≡◌, ◌++◌, ◌*◌, ◌-◌, ◌≤◌, suc, length, take, drop};
ghost use Rattle.rule.specs.Numbers.{slot_width};
ghost use Rattle.rule.specs.Room.{laid, numbers, slots, zeros};
ghost use Rattle.rooms.specs.Slots.{Filled, put_at};

use rule::{Bucket, SLOT};
use slots::write;

// The numbers from `from` up to `to` become zeros.
pub fn clear(room: &mut [i64], from: usize, to: usize)
    requires { (from ≤ to) × (to ≤ length room.old) }
    ensures { room.new ≡ take from room.old ++ (zeros (to - from) ++ drop to room.old) }
{
    room[from..to].fill(0);
}

// The part's first slot goes: those behind it move down by one, and the bucket follows them.
pub fn down(part: &mut [i64], b: Bucket)
    requires { slot_width ≤ length part.old }
    ensures { part.new ≡ drop slot_width part.old ++ numbers b }
{
    let last = part.len() - SLOT;
    part.copy_within(SLOT.., 0);
    write(&mut part[last..], 0, b);
}

// The part's last slot goes: those before it move up by one, the last of them first, and the bucket comes before them.
pub fn up(part: &mut [i64], b: Bucket)
    requires { slot_width ≤ length part.old }
    ensures { part.new ≡ numbers b ++ take (length part.old - slot_width) part.old }
{
    let last = part.len() - SLOT;
    part.copy_within(..last, SLOT);
    write(&mut *part, 0, b);
}

// The bucket goes into slot `at`, those from there on move up by one.
pub fn insert(room: &mut [i64], used: usize, at: usize, b: Bucket)
    requires { Filled room.old used × ((at ≤ used) × (slot_width * suc used ≤ length room.old)) }
    ensures { room.new ≡ laid (suc used) (put_at at b (slots room.old 0 used)) room.old }
{
    let place = SLOT * at;
    let end = SLOT * used + SLOT;
    up(&mut room[place..end], b);
}
