// The caption before a trace's lines, split off as pieces arrive.

#![tactic(auto)]

ghost use Rattle.std.specs.Prelude.{◌≡◌};
ghost use Rattle.sketching.specs.Heading.{headed, headed_from, kept};

use sketching::Heading;

// One byte more, where there is a place for it. Answers how many are kept then.
fn keep(filled: usize, caption: &mut [u8], b: u8) -> usize
    ensures { (result, caption.new) ≡ kept filled caption.old b }
{
    if filled < caption.len() {
        caption[filled] = b;
        return filled + 1;
    }
    filled
}

// The bytes up to a line feed, and it.
fn first_line(filled: usize, caption: &mut [u8], bytes: &[u8]) -> Heading
    ensures { (result, caption.new) ≡ headed_from filled 0 caption.old bytes.now }
{
    let mut k = filled;
    for (i, b) in bytes.iter().enumerate() {
        if *b == b'\n' {
            return Heading {
                filled: k,
                taken: i + 1,
                ended: true,
            };
        }
        k = keep(k, &mut *caption, *b);
    }
    Heading {
        filled: k,
        taken: bytes.len(),
        ended: false,
    }
}

// What of a piece belongs to the caption's line: its bytes are kept as far as there are places, and nothing is taken where the line has ended.
pub fn head(h: Heading, caption: &mut [u8], bytes: &[u8]) -> Heading
    ensures { (result, caption.new) ≡ headed h caption.old bytes.now }
{
    if h.ended {
        return Heading {
            filled: h.filled,
            taken: 0,
            ended: true,
        };
    }
    first_line(h.filled, caption, bytes)
}
