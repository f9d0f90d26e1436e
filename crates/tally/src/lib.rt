// The session tally: a record that the caller lends with a reading and gets back changed. Nothing else touches it.

#![tactic(auto)]

ghost use Rattle.std.specs.Prelude.{◌≡◌};
ghost use Rattle.rule.specs.Calls.{counted, late_outcome, next_outcome};
ghost use Rattle.trace.specs.Answers.{answered, verdict};

use counting::counted;
use rule::{Refusal, Tally};
use trace::Trace;

// The next reading of a trace in order, counted.
pub fn next(trace: Trace, room: &mut [i64], value: i32, tally: &mut Tally) -> Result<Trace, Refusal>
    ensures { ((result, room.new) ≡ answered (next_outcome trace.state room.old value)) × (tally.new ≡ counted tally.old trace.state.used (verdict result)) }
{
    let a = trace.next(&mut *room, value);
    let before = *tally;
    let after = counted(before, trace, a);
    *tally = after;
    a
}

// A reading of a late trace at its tick, counted.
pub fn late(
    trace: Trace,
    room: &mut [i64],
    tick: u32,
    value: i32,
    tally: &mut Tally,
) -> Result<Trace, Refusal>
    ensures { ((result, room.new) ≡ answered (late_outcome trace.state room.old tick value)) × (tally.new ≡ counted tally.old trace.state.used (verdict result)) }
{
    let a = trace.late(&mut *room, tick, value);
    let before = *tally;
    let counts = counted(before, trace, a);
    *tally = counts;
    a
}
