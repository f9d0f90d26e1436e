// A refusal as numbers.

#![tactic(auto)]

ghost use Rattle.std.specs.Prelude.{◌≡◌};
ghost use Rattle.rule.specs.Answers.{number, place};

use rule::Refusal;

// Document 01's number.
pub fn number(refusal: Refusal) -> u32
    ensures { result ≡ number refusal }
{
    match refusal {
        Refusal::Steps => 1,
        Refusal::Gaps => 2,
        Refusal::Room => 3,
        Refusal::Unsound => 4,
        Refusal::Kind => 5,
        Refusal::Tick => 6,
        Refusal::Length => 7,
        Refusal::Record(_) => 8,
        Refusal::Runs => 9,
        Refusal::Overfull => 10,
        Refusal::Taken => 11,
        Refusal::Absent => 12,
        Refusal::Short => 13,
        Refusal::Line => 14,
        Refusal::Caption => 15,
        Refusal::Edition => 16,
    }
}

// 0, but for a record that breaks a rule: its index.
pub fn place(refusal: Refusal) -> usize
    ensures { result ≡ place refusal }
{
    if let Refusal::Record(at) = refusal {
        at
    } else {
        0
    }
}
