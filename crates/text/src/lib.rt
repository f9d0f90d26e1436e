// What a line of the input means, its bytes read, by the definitions of `notation`.

#![tactic(auto)]

ghost use Rattle.std.specs.Prelude.{◌≡◌, ◌==◌, position};
ghost use Rattle.notation.specs.Reading.{line_of, spaced};
ghost use Rattle.notation.specs.Signs.{space};

use notation::Line;
use numbers::{signed_field, unsigned_field};

fn first_space(line: &[u8]) -> Option<usize>
    ensures { result ≡ position (λ b. b == space) line.now }
{
    line.iter().position(|b| *b == b' ')
}

fn spaced(before: &[u8], after: &[u8]) -> Option<Line>
    ensures { result ≡ spaced before.now after.now }
{
    match before {
        b"steps" => unsigned_field(after).map(Line::Steps),
        b"late" => unsigned_field(after).map(Line::Late),
        _ => Some(Line::Pair(unsigned_field(before)?, signed_field(after)?)),
    }
}

// What the bytes of a line, without its line feed, mean.
pub fn parse_line(line: &[u8]) -> Option<Line>
    ensures { result ≡ line_of line.now }
{
    if 64 < line.len() {
        return None;
    }
    match first_space(line) {
        Some(at) => spaced(&line[..at], &line[at + 1..]),
        None => signed_field(line).map(Line::Alone),
    }
}
