// The call that writes a picture: the same text is printed twice, into one byte for its length, and then into the caller's output.

#![tactic(auto)]

ghost use Rattle.std.specs.Prelude.{◌≡◌};
ghost use Rattle.drawing.specs.Call.{picture_outcome};

use legible::caption_good;
use rule::Refusal;
use sheet::put_picture;
use sound::sound;
use trace::Trace;

// The picture comes first in the output; what lies behind it stays.
pub fn picture(trace: Trace, room: &[i64], caption: &[u8], out: &mut [u8]) -> Result<usize, Refusal>
    ensures { (result, out.new) ≡ picture_outcome trace.state room.now caption.now out.old }
{
    let s = trace.state;
    if !sound(s, room) {
        return Err(Refusal::Unsound);
    }
    if !caption_good(caption) {
        return Err(Refusal::Caption);
    }
    let mut one = [0u8; 1];
    let length = put_picture(&mut one, 0, room, s.used, caption);
    if out.len() < length {
        return Err(Refusal::Short);
    }
    put_picture(&mut *out, 0, room, s.used, caption);
    Ok(length)
}
