// The call for other languages that replays a recording. It hands on to the call of its name and does nothing of its own.

#![tactic(auto)]

ghost use Rattle.std.specs.Prelude.{◌≡◌};
ghost use Rattle.plain.specs.Plain.{replay_reply};

use fields::{Named, opening_of};
use plain::Recount;
use recount::recounting;
use replay::replay;

#[unsafe(no_mangle)]
pub extern "C" fn ndz_replay(named: Named, recording: &[u8], room: &mut [i64]) -> Recount
    ensures { (result, room.new) ≡ replay_reply named recording.now room.old }
{
    let opening = opening_of(named);
    let size = opening.size;
    recounting(replay(size, opening.gaps, opening.edition, recording, &mut *room))
}
