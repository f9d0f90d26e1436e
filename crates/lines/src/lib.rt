// Bytes to lines: a line that has ended is read, obeyed and counted.

#![tactic(auto)]

ghost use Rattle.std.specs.Prelude.{◌≡◌};
ghost use Rattle.listing.specs.Feeding.{answered_by, byte_fed, line_ended, line_fed, too_long};
ghost use Rattle.listing.specs.Listing.{stage_after};

use listing::{Feeding, Stage};
use notation::Line;
use obeying::obey;
use rule::Refusal;
use trace::Trace;

fn stage_after(l: Option<Line>) -> Stage
    ensures { result ≡ stage_after l }
{
    match l {
        Some(Line::Steps(_)) => Stage::Steps,
        Some(Line::Late(_)) => Stage::Late,
        Some(Line::Alone(_) | Line::Pair(_, _)) | None => Stage::Readings,
    }
}

// One line more, answered so.
fn answered(f: Feeding, g: Stage, a: Result<Trace, Refusal>) -> Feeding
    ensures { result ≡ answered_by f g a }
{
    Feeding {
        last: a,
        stage: g,
        lines: f.lines.wrapping_add(1),
        filled: 0,
    }
}

fn line_read(f: Feeding, t: Trace, room: &mut [i64], line: &[u8]) -> Feeding
    ensures { (result, room.new) ≡ line_fed f t.state room.old line.now }
{
    let l = text::parse_line(line);
    let g = f.stage;
    let a = obey(g, t, &mut *room, l);
    answered(f, stage_after(l), a)
}

// A byte more than a line may have refuses the line at once, whatever follows, so that an input without a line feed ends the run too.
fn too_long(f: Feeding) -> Feeding
    ensures { result ≡ too_long f }
{
    answered(f, Stage::Readings, Err(Refusal::Line))
}

pub fn line_ended(f: Feeding, t: Trace, room: &mut [i64], line: &[u8]) -> Feeding
    ensures { (result, room.new) ≡ line_ended f t.state room.old line.now }
{
    let filled = f.filled;
    if filled <= line.len() {
        return line_read(f, t, &mut *room, &line[0..filled]);
    }
    too_long(f)
}

pub fn byte(mut f: Feeding, room: &mut [i64], line: &mut [u8], b: u8) -> Feeding
    ensures { (result, (room.new, line.new)) ≡ byte_fed f.last f room.old line.old b }
{
    let last = f.last;
    let Ok(t) = last else {
        return f;
    };
    if b == b'\n' {
        return line_ended(f, t, &mut *room, &*line);
    }
    let filled = f.filled;
    if filled < line.len() {
        line[filled] = b;
        f.filled = filled + 1;
        return f;
    }
    too_long(f)
}
