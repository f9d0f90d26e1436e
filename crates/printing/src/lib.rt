// The lines of the listing as bytes, printed from a place on, by the definitions of `notation`.

#![tactic(auto)]

ghost use Rattle.std.specs.Prelude.{[], ◌++◌, ◌+◌, ◌≤◌, ◌<◌, ◌^◌, length};
ghost use Rattle.notation.specs.Printing.{Printed, decimal, line_room, refused, row, total};
ghost use Rattle.output.specs.Output.{Put, filled};

use output::put_decimal;
use rule::Bucket;
use wording::put_text;

// A text, and a number behind it that may need all of 64 bits.
fn put_count(out: &mut [u8], at: usize, text: &[u8], count: usize) -> usize
    requires { at + length (filled text.now [] ++ decimal count) < 2 ^ 64 }
    ensures { Put out.old at (filled text.now [] ++ decimal count) result out.new }
{
    let next = put_text(out, at, text, &[0; 0]);
    put_decimal(out, next, count)
}

// The row of a bucket.
pub fn put_row(out: &mut [u8], at: usize, b: Bucket) -> usize
    requires { at + line_room ≤ length out.old }
    ensures { Printed out.old at (row b) result out.new }
{
    put_text(
        out,
        at,
        b"% % % % %\n",
        &[
            b.start as i64,
            b.count as i64,
            b.least as i64,
            b.largest as i64,
            bucket::level(b) as i64,
        ],
    )
}

// The last line.
pub fn put_total(out: &mut [u8], at: usize, readings: usize, buckets: usize, worst: u32) -> usize
    requires { at + line_room ≤ length out.old }
    ensures { Printed out.old at (total readings buckets worst) result out.new }
{
    let second = put_count(out, at, b"total ", readings);
    let third = put_count(out, second, b" ", buckets);
    put_text(out, third, b" %\n", &[worst as i64])
}

// The line of a refusal: the refused line, from 1, and the refusal's number.
pub fn put_refused(out: &mut [u8], at: usize, line: usize, number: u32) -> usize
    requires { at + line_room ≤ length out.old }
    ensures { Printed out.old at (refused line number) result out.new }
{
    let second = put_count(out, at, b"refused ", line);
    put_text(out, second, b" %\n", &[number as i64])
}
