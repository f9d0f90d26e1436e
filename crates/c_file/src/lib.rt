// The calls for other languages that save and load a trace. Each hands on to the call of its name and does nothing of its own.

#![tactic(auto)]

ghost use Rattle.std.specs.Prelude.{◌≡◌};
ghost use Rattle.plain.specs.Plain.{load_reply, save_reply};

use fields::{Fields, Named, none, opening_of, trace_of};
use plain::{Counted, Reply, replying, telling};

#[unsafe(no_mangle)]
pub extern "C" fn ndz_save(state: Fields, room: &[i64], out: &mut [u8]) -> Counted
    ensures { (result, out.new) ≡ save_reply state room.now out.old }
{
    let trace = trace_of(state);
    telling(saved::save(trace, room, &mut *out))
}

#[unsafe(no_mangle)]
pub extern "C" fn ndz_load(named: Named, file: &[u8], room: &mut [i64]) -> Reply
    ensures { (result, room.new) ≡ load_reply named file.now room.old }
{
    let wanted = opening_of(named);
    replying(none(), loaded::load(wanted, file, &mut *room))
}
