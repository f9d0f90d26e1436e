// The picture of what was read, as bytes, or the refused line.

#![tactic(auto)]

ghost use Rattle.std.specs.Prelude.{◌≤◌, ◌≡◌, true, length};
ghost use Rattle.rule.specs.Room.{sound, table_of};
ghost use Rattle.notation.specs.Printing.{Printed};
ghost use Rattle.captions.specs.Caption.{caption_good};
ghost use Rattle.drawing.specs.Picture.{picture};
ghost use Rattle.drawing.specs.Promise.{picture_most};
ghost use Rattle.sketching.specs.Heading.{Drawable};
ghost use Rattle.sketching.specs.Sketching.{sketched};

use legible::caption_good;
use listing::Feeding;
use picture::picture;
use printing::put_refused;
use rule::Refusal;
use trace::Trace;

// The picture, which no output of so many bytes is too short for.
fn drawn(t: Trace, room: &[i64], caption: &[u8], out: &mut [u8]) -> usize
    requires { (sound t.state room.now ≡ true) × ((caption_good caption.now ≡ true) × (picture_most ≤ length out.old)) }
    ensures { Printed out.old 0 (picture (table_of t.state room.now) caption.now) result out.new }
{
    let d = picture(t, room, caption, &mut *out);
    let Ok(length) = d else {
        return 0;
    };
    length
}

// What is written, and how many bytes it has. The caption is asked first.
pub fn sketch(f: Feeding, room: &[i64], caption: &[u8], out: &mut [u8]) -> usize
    requires { Drawable f.last room.now × (picture_most ≤ length out.old) }
    ensures { Printed out.old 0 (sketched f.last f.lines room.now caption.now) result out.new }
{
    if !caption_good(caption) {
        return put_refused(out, 0, 0, refusal::number(Refusal::Caption));
    }
    let last = f.last;
    match last {
        Ok(t) => drawn(t, room, caption, out),
        Err(r) => put_refused(out, 0, f.lines, refusal::number(r)),
    }
}
