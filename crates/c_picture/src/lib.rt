// The call for other languages that writes a picture. It hands on to the call of its name and does nothing of its own.

#![tactic(auto)]

ghost use Rattle.std.specs.Prelude.{◌≡◌};
ghost use Rattle.pictured.specs.Pictured.{picture_reply};

use fields::{Fields, trace_of};
use pictured::{Pictured, picturing};

#[unsafe(no_mangle)]
pub extern "C" fn ndz_picture(
    state: Fields,
    room: &[i64],
    caption: &[u8],
    out: &mut [u8],
) -> Pictured
    ensures { (result, out.new) ≡ picture_reply state room.now caption.now out.old }
{
    let trace = trace_of(state);
    picturing(picture::picture(trace, room, caption, &mut *out))
}
