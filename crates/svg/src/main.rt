// The picture program: a caption and a trace's lines from standard input, the picture to standard output, or the first refused line.

#![tactic(auto)]

ghost use Rattle.std.specs.Prelude.{◌≡◌, ◌&&◌, not};

use ending::Failure;
use heading::head;
use legible::caption_good;
use sketch::sketch;
use sketching::Heading;
use std::io::Read;

// Whether nothing was refused: a caption that is not good and a refused line end the run.
fn goes_on(good: bool, refused: bool) -> bool
    ensures { result ≡ good && not refused }
{
    good && !refused
}

// Where something is refused, nothing more is read. Where the input cannot be read to its end, what was read of it is not drawn.
fn draw(rt: &HostRuntime) -> Result<(), Failure> {
    let mut room = [0i64; 3076];
    let mut line = [0u8; 64];
    let mut caption = [0u8; 201];
    let mut piece = [0u8; 65536];
    let mut input = rt.stdin();
    let mut state = begin::begin(&mut room);
    let mut heading = Heading {
        filled: 0,
        taken: 0,
        ended: false,
    };
    'pieces: while goes_on(
        caption_good(&caption[..heading.filled]),
        begin::ended(state),
    ) {
        let n = input.read(&mut piece).map_err(|_| Failure::Unread)?;
        if n == 0 {
            break;
        }
        heading = head(heading, &mut caption, &piece[..n]);
        state = gathering::piece(state, &mut room, &mut line, &piece[heading.taken..n]);
    }
    state = reader::rest(state, &mut room, &line);
    let mut out = [0u8; 22866];
    let n = sketch(state, &room, &caption[..heading.filled], &mut out);
    rt.write_all(&out[..n]).map_err(|_| Failure::Unwritten)?;
    if !goes_on(
        caption_good(&caption[..heading.filled]),
        begin::ended(state),
    ) {
        return Err(Failure::Refused);
    }
    Ok(())
}

// Nothing is said of a picture. Where the line cannot be written, nothing more can be said.
fn main(rt: HostRuntime) {
    if let Err(failure) = draw(&rt) {
        let _ = eprintln!(rt; "picture: {failure}");
    }
}
