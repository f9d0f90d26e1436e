// The text of a picture, printed from a place on: the caption, the scale and the lines.

#![tactic(auto)]

ghost use Rattle.std.specs.Prelude.{◌+◌, ◌≤◌, ◌<◌, ◌^◌, length};
ghost use Rattle.rule.specs.Room.{slots};
ghost use Rattle.output.specs.Output.{Put};
ghost use Rattle.drawing.specs.Picture.{front, picture, scale};
ghost use Rattle.sheet.specs.Drawable.{Drawable};

use captioning::put_caption;
use curve::put_lines;
use drawing::View;
use scale::{down, view};
use wording::put_text;

// The caption in two lines.
fn put_front(out: &mut [u8], at: usize, caption: &[u8]) -> usize
    requires { at + length (front caption.now) < 2 ^ 64 }
    ensures { Put out.old at (front caption.now) result out.new }
{
    let (first, second) = caption.split_at(caption.len().min(100));
    let a = put_text(
        out,
        at,
        b"<svg xmlns=\"http://www.w3.org/2000/svg\" viewBox=\"0 0 10000 5000\" font-family=\"monospace\" font-size=\"160\" direction=\"ltr\">\n<rect width=\"10000\" height=\"5000\" fill=\"white\"/>\n<text x=\"100\" y=\"4660\" xml:space=\"preserve\"><tspan x=\"100\">",
        &[],
    );
    let b = put_caption(out, a, first);
    let c = put_text(out, b, b"</tspan><tspan x=\"100\" dy=\"220\">", &[]);
    let d = put_caption(out, c, second);
    put_text(out, d, b"</tspan></text>\n", &[])
}

// The scale, where there are buckets.
fn put_scale(out: &mut [u8], at: usize, v: View, used: usize) -> usize
    requires { (v.first < 2 ^ 40) × ((1 ≤ v.span) × ((v.span < 2 ^ 40) × (at + length (scale used v) < 2 ^ 64))) }
    ensures { Put out.old at (scale used v) result out.new }
{
    if used == 0 {
        return put_text(
            out,
            at,
            b"<text x=\"100\" y=\"2160\">no readings</text>\n",
            &[],
        );
    }
    let top = down(v, v.top);
    let low = down(v, v.low);
    let numbers = [
        top,
        low,
        top,
        v.top as i64,
        low,
        v.low as i64,
        v.first as i64,
        (v.first + v.span - 1) as i64,
    ];
    put_text(
        out,
        at,
        b"<path stroke=\"silver\" stroke-width=\"10\" stroke-dasharray=\"20 60\" d=\"M100 % H9900 M100 % H9900\"/>\n<text x=\"100\" y=\"%\" dy=\"-60\">% mV</text>\n<text x=\"100\" y=\"%\" dy=\"200\">% mV</text>\n<text x=\"9900\" y=\"4260\" text-anchor=\"end\">ticks % to %</text>\n",
        &numbers,
    )
}

// The whole picture.
pub fn put_picture(out: &mut [u8], at: usize, room: &[i64], used: usize, caption: &[u8]) -> usize
    requires { Drawable room.now used × (at + length (picture (slots room.now 0 used) caption.now) < 2 ^ 64) }
    ensures { Put out.old at (picture (slots room.now 0 used) caption.now) result out.new }
{
    let v = view(room, used);
    let a = put_front(out, at, caption);
    let b = put_scale(out, a, v, used);
    let c = put_text(
        out,
        b,
        b"<g fill=\"none\" stroke=\"black\" stroke-width=\"30\" stroke-linecap=\"square\" stroke-miterlimit=\"1.5\">\n",
        &[],
    );
    let d = put_lines(out, c, v, room, used);
    put_text(out, d, b"</g>\n</svg>\n", &[])
}
