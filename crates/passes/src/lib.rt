// The passes over a room's numbers, any numbers: one over the slots in use, one over what is to be zeros behind them.

#![tactic(auto, using(std::proofs::lemmas::Int::ints), unfolding(rule::specs::Room::within))]

ghost use Rattle.std.specs.Prelude.{◌≡◌, ◌+◌, ◌*◌, ◌-◌, ◌≤◌, suc, length, take, drop, ◌&&◌, eqb};
ghost use Rattle.rule.specs.Numbers.{slot_width};
ghost use Rattle.rule.specs.Rules.{ruled};
ghost use Rattle.rule.specs.Room.{all_zero, ranged, signed, slot_ranged, slots, unsigned};
ghost use Rattle.rule.specs.Table.{readings, runs, runs_after};

use rule::{Kind, SLOT, WORD};
use rules::{first_broken, starts_run};
use slots::read;

pub(crate) fn unsigned(z: i64) -> bool
    ensures { result ≡ unsigned z }
{
    0 <= z && z < WORD
}

pub(crate) fn signed(z: i64) -> bool
    ensures { result ≡ signed z }
{
    -2147483648 <= z && z < 2147483648
}

// Every number of slot `at` lies in its field's range.
pub(crate) fn slot_ranged(room: &[i64], at: usize) -> bool
    requires { slot_width * suc at ≤ length room.now }
    ensures { result ≡ slot_ranged room.now at }
{
    let from = SLOT * at;
    unsigned(room[from])
        && unsigned(room[from + 1])
        && signed(room[from + 2])
        && signed(room[from + 3])
}

// The numbers from `from` up to `to` are zeros.
pub fn all_zero(room: &[i64], from: usize, to: usize) -> bool
    requires { (from ≤ to) × (to ≤ length room.now) }
    ensures { result ≡ all_zero (take (to - from) (drop from room.now)) }
{
    room[from..to].iter().all(|z| *z == 0)
}

// The one pass: every number of the first `used` slots in its range, every record within the rules, and the runs and readings as many as told.
pub fn scan(kind: Kind, used: usize, told_runs: usize, told_readings: usize, room: &[i64]) -> bool
    requires { (slot_width * used ≤ length room.now) × (used ≤ 1024) }
    ensures { result ≡ ranged room.now 0 used && (ruled kind (slots room.now 0 used) && (eqb told_runs (runs (slots room.now 0 used)) && eqb told_readings (readings (slots room.now 0 used)))) }
{
    let mut runs = first_run(used, room);
    let mut readings = 0;
    let mut end = 0;
    for i in 0..used {
        if !slot_ranged(room, i) {
            return false;
        }
        let b = read(room, i);
        if first_broken(kind, end, b) != 0 {
            return false;
        }
        runs += starts_run(end, b);
        readings += b.count as usize;
        end = bucket::end(b);
    }
    told_runs == runs && told_readings == readings
}

// 1 where the first slot in use starts at tick 0: `scan` counts a run where a bucket does not start at the end of the one before, and before the first that end is 0.
pub(crate) fn first_run(used: usize, room: &[i64]) -> usize
    requires { slot_width * used ≤ length room.now }
    ensures used_value { runs (slots room.now 0 used) ≡ result + runs_after 0 (slots room.now 0 used) }
    ensures upper_bound { result ≤ 1 }
{
    (0 < used && room[0] == 0) as usize
}
