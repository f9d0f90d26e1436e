// What a caller calls: a trace in order or late over lent room. Open, next, late and lookup ask nothing of their caller.

#![tactic(auto)]

ghost use Rattle.std.specs.Prelude.{◌≡◌};
ghost use Rattle.rule.specs.Calls.{late_outcome, lookup_outcome, next_outcome, opened, state_of, traced};
ghost use Rattle.rule.specs.Room.{laid, table_of};
ghost use Rattle.rule.specs.Table.{accept, needed};
ghost use Rattle.rooms.specs.Steps.{Ready};
ghost use Rattle.trace.specs.Answers.{answered};
ghost use Rattle.trace.specs.Taken.{Arrives, taken};

use admission::{Admitted, admit};
use arrival::Arrival;
use moves::clear;
use openings::empty;
use room::accept;
use rule::{Found, Opening, Refusal, SLOT, State};

// The trace's state, with its calls. Each hands the next one back.
#[derive(Clone, Copy)]
pub struct Trace {
    pub state: State,
}

impl Trace {
    // An empty trace in the needed slots of the room.
    pub fn open(named: Opening, room: &mut [i64]) -> Result<Trace, Refusal>
        ensures { (result, room.new) ≡ answered (opened named room.old) }
    {
        let Admitted { settings, slots } = admit(named, &*room)?;
        clear(&mut *room, 0, SLOT * slots);
        Ok(Trace {
            state: empty(settings),
        })
    }

    // A reading of which the place, the runs there are with it and the tick are known: for whoever knows that the trace is sound and the reading is taken.
    pub fn accept(
        mut self,
        room: &mut [i64],
        at: usize,
        runs: usize,
        tick: u32,
        value: i32,
    ) -> Trace
        requires { Ready self.state room.old at runs tick value }
        ensures { (result.state ≡ state_of self.state.settings (accept self.state.settings (table_of self.state room.old) tick value)) × (room.new ≡ laid (needed self.state.settings) (accept self.state.settings (table_of self.state room.old) tick value) room.old) }
    {
        let s = self.state;
        let settings = s.settings;
        let used = accept(s, &mut *room, at, runs, tick, value);
        let state = State {
            settings,
            used,
            runs,
            readings: s.readings + 1,
        };
        self.state = state;
        self
    }

    // A reading that is refused, or goes to its place: for whoever knows its arrival.
    pub fn take(
        self,
        arrival: Result<Arrival, Refusal>,
        room: &mut [i64],
        value: i32,
    ) -> Result<Trace, Refusal>
        requires { Arrives self.state room.old value arrival }
        ensures { (result, room.new) ≡ answered (traced self.state.settings room.old (taken self.state room.old value arrival)) }
    {
        let Arrival { at, runs, tick } = arrival?;
        Ok(self.accept(&mut *room, at, runs, tick, value))
    }

    // The next reading of a trace in order.
    pub fn next(self, room: &mut [i64], value: i32) -> Result<Trace, Refusal>
        ensures { (result, room.new) ≡ answered (next_outcome self.state room.old value) }
    {
        let arrival = arrival::next(self.state, &*room);
        self.take(arrival, &mut *room, value)
    }

    // A reading at its tick, in any order, of a late trace.
    pub fn late(self, room: &mut [i64], tick: u32, value: i32) -> Result<Trace, Refusal>
        ensures { (result, room.new) ≡ answered (late_outcome self.state room.old tick value) }
    {
        let arrival = arrival::late(self.state, &*room, tick);
        self.take(arrival, &mut *room, value)
    }

    // The holding bucket's level, error, least and largest.
    pub fn lookup(self, room: &[i64], tick: u32) -> Result<Found, Refusal>
        ensures { result ≡ lookup_outcome self.state room.now tick }
    {
        lookup::lookup(self.state, room, tick)
    }
}
