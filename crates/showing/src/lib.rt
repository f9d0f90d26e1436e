// The listing of what was read, as bytes: the buckets and their total, or the refused line.

#![tactic(auto)]

ghost use Rattle.std.specs.Prelude.{◌*◌, ◌≤◌, ◌≡◌, length};
ghost use Rattle.rule.specs.Room.{slots, table_of};
ghost use Rattle.rooms.specs.Slots.{Filled};
ghost use Rattle.notation.specs.Printing.{Printed, line_room, listing, rows};
ghost use Rattle.listing.specs.Listing.{shown};
ghost use Rattle.listing.specs.Feeding.{Listable, Showable};

use listing::Feeding;
use printing::{put_refused, put_row, put_total};
use trace::Trace;
use worst::greatest_error;

// One line a bucket of the first slots.
fn rows(room: &[i64], used: usize, out: &mut [u8]) -> usize
    requires { Filled room.now used × (line_room * used ≤ length out.old) }
    ensures { Printed out.old 0 (rows (slots room.now 0 used)) result out.new }
{
    let mut at = 0;
    for done in 0..used {
        at = put_row(&mut *out, at, slots::read(room, done));
    }
    at
}

// The lines of the buckets, and the total.
fn listed(t: Trace, room: &[i64], out: &mut [u8]) -> usize
    requires { Listable t.state room.now out.old }
    ensures { Printed out.old 0 (listing (table_of t.state room.now)) result out.new }
{
    let s = t.state;
    let at = rows(room, s.used, &mut *out);
    put_total(
        &mut *out,
        at,
        s.readings,
        s.used,
        greatest_error(room, s.used),
    )
}

// What is written, and how many bytes it has.
pub fn show(f: Feeding, room: &[i64], out: &mut [u8]) -> usize
    requires { Showable f.last room.now out.old }
    ensures { Printed out.old 0 (shown f.last f.lines room.now) result out.new }
{
    let last = f.last;
    match last {
        Ok(t) => listed(t, room, out),
        Err(r) => put_refused(out, 0, f.lines, refusal::number(r)),
    }
}
