// What is asked of a trace's kind and settings, each thing once. Nothing here but `limit` and `needed` asks anything of its caller.

#![tactic(auto, unfolding(rule::specs::Calls::late, rule::specs::Room::bounded, rule::specs::Room::edition_good, rule::specs::Room::gaps_good, rule::specs::Room::runs_allowed, rule::specs::Table::limit_over))]

ghost use Rattle.std.specs.Prelude.{◌≡◌, ◌<◌, ◌^◌};
ghost use Rattle.rule.specs.Calls.{late};
ghost use Rattle.rule.specs.Room.{bounded, edition_good, gaps_good, runs_allowed};
ghost use Rattle.rule.specs.Table.{limit, needed};

use rule::{Kind, MOST, Settings};

pub fn is_late(kind: Kind) -> bool
    ensures { result ≡ late kind }
{
    matches!(kind, Kind::Late)
}

// 1 to the top.
pub fn bounded(n: usize, top: usize) -> bool
    ensures { result ≡ bounded top n }
{
    1 <= n && n <= top
}

// 1 or 2.
pub fn edition_good(edition: usize) -> bool
    ensures { result ≡ edition_good edition }
{
    edition == 1 || edition == 2
}

pub fn gaps_good(kind: Kind, gaps: usize) -> bool
    ensures { result ≡ gaps_good kind gaps }
{
    match kind {
        Kind::InOrder => gaps == 0,
        Kind::Late => bounded(gaps, MOST),
    }
}

pub fn runs_allowed(kind: Kind, gaps: usize, runs: usize) -> bool
    ensures { result ≡ runs_allowed kind gaps runs }
{
    match kind {
        Kind::InOrder => true,
        Kind::Late => runs <= gaps,
    }
}

// C in order, C + k late.
pub fn limit(s: Settings, runs: usize) -> usize
    requires { limit s runs < 2 ^ 32 }
    ensures { result ≡ limit s runs }
{
    match s.kind {
        Kind::InOrder => s.base,
        Kind::Late => s.base + runs,
    }
}

// The slots that a trace needs: one more than the limit at the most runs.
pub fn needed(s: Settings) -> usize
    requires { needed s < 2 ^ 32 }
    ensures { result ≡ needed s }
{
    limit(s, s.gaps) + 1
}
