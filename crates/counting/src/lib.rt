// The tally after one reading: its three counts, which stop at the most that 32 bits hold.

#![tactic(auto)]

ghost use Rattle.std.specs.Prelude.{◌+◌, ◌-◌, ◌≡◌};
ghost use Rattle.rule.specs.Calls.{counted, grown};
ghost use Rattle.trace.specs.Answers.{verdict};

use rule::{Refusal, Tally};
use trace::Trace;

// A count that has grown stops at the most.
pub fn grown(count: u32, by: usize) -> u32
    ensures { result ≡ grown count by }
{
    count.saturating_add(u32::try_from(by).unwrap_or(u32::MAX))
}

// The merges counted, of so many slots in use before and after, and so many buckets brought. before + brought need not fit, so what was brought is added last.
pub fn merged(count: u32, before: usize, brought: usize, after: usize) -> u32
    ensures { result ≡ grown count (before + brought - after) }
{
    if after <= before {
        return grown(grown(count, before - after), brought);
    }
    grown(count, brought.saturating_sub(after - before))
}

// The tally after a reading on this trace.
pub fn counted(t: Tally, trace: Trace, a: Result<Trace, Refusal>) -> Tally
    ensures { result ≡ counted t trace.state.used (verdict a) }
{
    match a {
        Ok(after) => Tally {
            accepted: grown(t.accepted, 1),
            refused: t.refused,
            merges: merged(t.merges, trace.state.used, 1, after.state.used),
        },
        Err(_) => Tally {
            accepted: t.accepted,
            refused: grown(t.refused, 1),
            merges: t.merges,
        },
    }
}
