// The chart row: the buckets of a sound trace, written into the caller's records.

#![tactic(auto)]

ghost use Rattle.std.specs.Prelude.{◌≡◌};
ghost use Rattle.rule.specs.Calls.{row_outcome};
ghost use Rattle.row.specs.Answers.{number, row_answer};

use rule::{Bucket, Refusal};
use slots::read;
use sound::sound;
use trace::Trace;

// What `row` answers where the output has so many places.
fn written(trace: Trace, room: &[i64], places: usize) -> Result<usize, Refusal>
    ensures { result ≡ row_answer trace.state room.now places }
{
    let s = trace.state;
    if !sound(s, room) {
        return Err(Refusal::Unsound);
    }
    if places < s.used {
        return Err(Refusal::Short);
    }
    Ok(s.used)
}

// How many buckets are written: none where the answer is a refusal.
fn number(w: Result<usize, Refusal>) -> usize
    ensures { result ≡ number w }
{
    match w {
        Ok(n) => n,
        Err(_) => 0,
    }
}

// The buckets, in the first places of the output; the places behind them are as they were.
pub fn row(trace: Trace, room: &[i64], out: &mut [Bucket]) -> Result<usize, Refusal>
    ensures { (result, out.new) ≡ row_outcome trace.state room.now out.old }
{
    let a = written(trace, room, out.len());
    let n = number(a);
    for i in 0..n {
        out[i] = read(room, i);
    }
    a
}
