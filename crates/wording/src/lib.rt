// Texts with numbers in them, printed from a place on.

#![tactic(auto)]

ghost use Rattle.std.specs.Prelude.{◌+◌, ◌<◌, ◌^◌, length};
ghost use Rattle.notation.specs.Printing.{whole};
ghost use Rattle.output.specs.Output.{Put, filled};

use output::{put_byte, put_decimal};

fn put_whole(out: &mut [u8], at: usize, z: i64) -> usize
    requires { at + length (whole z) < 2 ^ 64 }
    ensures { Put out.old at (whole z) result out.new }
{
    if z < 0 {
        let next = put_byte(out, at, b'-');
        return put_decimal(out, next, z.unsigned_abs() as usize);
    }
    put_decimal(out, at, z as usize)
}

// A text, each `%` in it a number, 0 where there are no more.
pub fn put_text(out: &mut [u8], at: usize, text: &[u8], numbers: &[i64]) -> usize
    requires { at + length (filled text.now numbers.now) < 2 ^ 64 }
    ensures { Put out.old at (filled text.now numbers.now) result out.new }
{
    let mut next = at;
    let mut left = numbers.iter();
    for b in text {
        next = if *b == b'%' {
            put_whole(&mut *out, next, left.next().copied().unwrap_or(0))
        } else {
            put_byte(&mut *out, next, *b)
        };
    }
    next
}
