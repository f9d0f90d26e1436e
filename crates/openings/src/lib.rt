// What a trace is opened, loaded or replayed with, and what the state keeps of it. Only `base_of` and `kept` ask something of their caller: 2B is formed of a good B alone.

#![tactic(auto, unfolding(rule::specs::Calls::base_of, rule::specs::Calls::gaps_kept, rule::specs::Calls::size_good, rule::specs::Room::bounded, rule::specs::Table::readings, rule::specs::Table::runs))]

ghost use Rattle.std.specs.Prelude.{true, ◌≡◌, []};
ghost use Rattle.rule.specs.declared.Kind.TheVariants.{InOrder, Late};
ghost use Rattle.rule.specs.Calls.{base_of, gaps_kept, kept, size_good, state_of};

use rule::{Kind, MOST, MOST_BASE, Opening, Settings, Size, State};
use settings::bounded;

// A trace in order.
pub fn in_order(size: Size, edition: usize) -> Opening
    ensures { result ≡ record { kind = InOrder; size = size; gaps = 0; edition = edition } }
{
    Opening {
        kind: Kind::InOrder,
        size,
        gaps: 0,
        edition,
    }
}

// A late trace of at most K runs.
pub fn late(size: Size, gaps: usize, edition: usize) -> Opening
    ensures { result ≡ record { kind = Late; size = size; gaps = gaps; edition = edition } }
{
    Opening {
        kind: Kind::Late,
        size,
        gaps,
        edition,
    }
}

// B is 1 to 256, C is 1 to 512.
pub fn size_good(size: Size) -> bool
    ensures { result ≡ size_good size }
{
    match size {
        Size::Steps(b) => bounded(b, MOST),
        Size::Base(c) => bounded(c, MOST_BASE),
    }
}

// B stands for a base limit of 2B.
pub fn base_of(size: Size) -> usize
    requires { size_good size ≡ true }
    ensures { result ≡ base_of size }
{
    match size {
        Size::Steps(b) => 2 * b,
        Size::Base(c) => c,
    }
}

pub(crate) fn gaps_kept(kind: Kind, gaps: usize) -> usize
    ensures { result ≡ gaps_kept kind gaps }
{
    match kind {
        Kind::InOrder => 0,
        Kind::Late => gaps,
    }
}

// In order a given K is ignored and kept as 0.
pub fn kept(named: Opening) -> Settings
    requires { size_good named.size ≡ true }
    ensures { result ≡ kept named }
{
    Settings {
        kind: named.kind,
        base: base_of(named.size),
        gaps: gaps_kept(named.kind, named.gaps),
        edition: named.edition,
    }
}

// The state of an empty trace.
pub fn empty(s: Settings) -> State
    ensures { result ≡ state_of s [] }
{
    State {
        settings: s,
        used: 0,
        runs: 0,
        readings: 0,
    }
}
