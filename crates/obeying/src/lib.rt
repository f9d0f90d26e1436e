// What a line of the listing's input does, by the lines before it.

#![tactic(auto)]

ghost use Rattle.std.specs.Prelude.{◌≡◌, cond};
ghost use Rattle.rule.specs.Calls.{late, opened};
ghost use Rattle.trace.specs.Answers.{answered};
ghost use Rattle.listing.specs.Listing.{late_may, obeyed, steps_may, unreadable};

use listing::{EDITION, Stage};
use notation::Line;
use rule::{Opening, Refusal, Size};
use trace::Trace;

fn steps_may(g: Stage) -> bool
    ensures { result ≡ steps_may g }
{
    matches!(g, Stage::Nothing)
}

fn late_may(g: Stage) -> bool
    ensures { result ≡ late_may g }
{
    matches!(g, Stage::Nothing | Stage::Steps)
}

// A header opens the trace anew, where it may stand.
fn header(may: bool, named: Opening, room: &mut [i64]) -> Result<Trace, Refusal>
    ensures { (result, room.new) ≡ cond may (answered (opened named room.old)) (unreadable room.old) }
{
    if may {
        Trace::open(named, room)
    } else {
        Err(Refusal::Line)
    }
}

fn is_late(t: Trace) -> bool
    ensures { result ≡ late t.state.settings.kind }
{
    let s = t.state;
    let named = s.settings;
    let kind = named.kind;
    settings::is_late(kind)
}

// What a line does, by the lines before it.
pub fn obey(g: Stage, t: Trace, room: &mut [i64], l: Option<Line>) -> Result<Trace, Refusal>
    ensures { (result, room.new) ≡ obeyed g t.state room.old l }
{
    let late = is_late(t);
    match l {
        Some(Line::Steps(b)) => header(
            steps_may(g),
            openings::in_order(Size::Steps(b as usize), EDITION),
            room,
        ),
        Some(Line::Late(k)) => header(
            late_may(g),
            openings::late(Size::Base(t.state.settings.base), k as usize, EDITION),
            room,
        ),
        Some(Line::Alone(v)) => {
            if late {
                return Err(Refusal::Line);
            }
            t.next(room, v)
        }
        Some(Line::Pair(tick, v)) => {
            if late {
                return t.late(room, tick, v);
            }
            Err(Refusal::Line)
        }
        None => Err(Refusal::Line),
    }
}
