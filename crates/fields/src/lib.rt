// The state and what a trace is opened with as plain fields for other languages, and back.

#![tactic(auto)]

ghost use Rattle.std.specs.Prelude.{◌≡◌};
ghost use Rattle.fields.specs.States.{fields_of, kind_of, none, number_of, opening_of, size_of, state_from};

use rule::{Kind, Opening, Settings, Size, State};
use trace::Trace;

// What a trace is opened, loaded or replayed with: its kind is 0 in order and any other number late; its size is B where `by` is 0, and C where it is any other number; K; and the edition.
#[repr(C)]
#[derive(Clone, Copy)]
pub struct Named {
    pub kind: usize,
    pub size: usize,
    pub gaps: usize,
    pub by: usize,
    pub edition: usize,
}

// A state: its kind is 0 in order and any other number late; C, K, slots in use, runs, readings; and the edition, which stands last.
#[repr(C)]
#[derive(Clone, Copy)]
pub struct Fields {
    pub kind: usize,
    pub base: usize,
    pub gaps: usize,
    pub used: usize,
    pub runs: usize,
    pub readings: usize,
    pub edition: usize,
}

fn kind_of(number: usize) -> Kind
    ensures { result ≡ kind_of number }
{
    if number == 0 {
        Kind::InOrder
    } else {
        Kind::Late
    }
}

fn number_of(kind: Kind) -> usize
    ensures { result ≡ number_of kind }
{
    match kind {
        Kind::InOrder => 0,
        Kind::Late => 1,
    }
}

fn size_of(by: usize, size: usize) -> Size
    ensures { result ≡ size_of by size }
{
    if by == 0 {
        Size::Steps(size)
    } else {
        Size::Base(size)
    }
}

pub fn opening_of(named: Named) -> Opening
    ensures { result ≡ opening_of named }
{
    let kind = kind_of(named.kind);
    let size = size_of(named.by, named.size);
    Opening {
        kind,
        size,
        gaps: named.gaps,
        edition: named.edition,
    }
}

pub fn trace_of(f: Fields) -> Trace
    ensures { result.state ≡ state_from f }
{
    let kind = kind_of(f.kind);
    Trace {
        state: State {
            settings: Settings {
                kind,
                base: f.base,
                gaps: f.gaps,
                edition: f.edition,
            },
            used: f.used,
            runs: f.runs,
            readings: f.readings,
        },
    }
}

pub fn fields_of(s: State) -> Fields
    ensures { result ≡ fields_of s }
{
    let settings = s.settings;
    let kind = settings.kind;
    Fields {
        kind: number_of(kind),
        base: settings.base,
        gaps: settings.gaps,
        used: s.used,
        runs: s.runs,
        readings: s.readings,
        edition: settings.edition,
    }
}

// The state that a refused open, load or replay answers: no reading and no look accepts it.
pub fn none() -> Fields
    ensures { result ≡ none }
{
    Fields {
        kind: 0,
        base: 0,
        gaps: 0,
        used: 0,
        runs: 0,
        readings: 0,
        edition: 0,
    }
}
