// A caption printed.

#![tactic(auto)]

ghost use Rattle.std.specs.Prelude.{◌+◌, ◌<◌, ◌^◌, length};
ghost use Rattle.output.specs.Output.{Put};
ghost use Rattle.captions.specs.Caption.{escaped, leaving, signs};

use output::put_byte;
use wording::put_text;

// One byte as it leaves.
#[tactic(auto, unfolding(captions::specs::Caption::leaving, output::specs::Output::filled, output::specs::Output::sign, output::specs::Output::unused))]
fn put_leaving(out: &mut [u8], at: usize, b: u8) -> usize
    requires { at + length (leaving signs b) < 2 ^ 64 }
    ensures { Put out.old at (leaving signs b) result out.new }
{
    match b {
        b'&' => put_text(out, at, b"&amp;", &[]),
        b'<' => put_text(out, at, b"&lt;", &[]),
        b'>' => put_text(out, at, b"&gt;", &[]),
        b'"' => put_text(out, at, b"&quot;", &[]),
        b'\'' => put_text(out, at, b"&#39;", &[]),
        _ => put_byte(out, at, b),
    }
}

// A caption, or a part of one.
pub fn put_caption(out: &mut [u8], at: usize, caption: &[u8]) -> usize
    requires { at + length (escaped caption.now) < 2 ^ 64 }
    ensures { Put out.old at (escaped caption.now) result out.new }
{
    let mut next = at;
    for b in caption {
        next = put_leaving(&mut *out, next, *b);
    }
    next
}
