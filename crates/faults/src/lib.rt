// What a saved file is refused for: the first record that breaks a rule, its runs and readings, and refusals 7 to 10.

#![tactic(auto)]

ghost use Rattle.std.specs.Prelude.{◌≡◌, true, ◌/◌, ◌≤◌, length};
ghost use Rattle.rule.specs.Numbers.{record_width, ticks};
ghost use Rattle.rule.specs.Bytes.{records_of};
ghost use Rattle.rule.specs.Calls.{file_verdict};
ghost use Rattle.rule.specs.Room.{base_good, gaps_good};
ghost use Rattle.rule.specs.Rules.{first_fault, place_or};
ghost use Rattle.rule.specs.Table.{readings, runs};
ghost use Rattle.faults.specs.Verdicts.{inspection};

use record::read;
use rule::{Kind, RECORD, Refusal, Settings, WORD};
use rules::{RULES, meets, starts_run};
use settings::{limit, runs_allowed};

// No record starts there, so the first of a file begins a run.
const NOWHERE: usize = WORD as usize;

// How many runs and readings a file holds.
#[derive(Clone, Copy)]
pub struct Contents {
    pub runs: usize,
    pub readings: usize,
}

// The index of the first record that breaks a rule, the number of whole records where none does.
pub fn first_fault(kind: Kind, file: &[u8]) -> usize
    ensures { result ≡ place_or (length file.now / record_width) (first_fault kind 0 0 (records_of file.now)) }
{
    let n = file.len() / RECORD;
    let mut end = 0;
    let mut i = 0;
    // A labelled loop that yields the index, as document 01 names it: a `for` yields nothing.
    let bad = 'records: loop {
        if n <= i {
            break 'records n;
        }
        let b = read(file, i);
        for rule in 1..=RULES {
            if !meets(rule, kind, end, b) {
                break 'records i;
            }
        }
        end = bucket::end(b);
        i += 1;
    };
    bad
}

// The runs and readings of a file that holds no more readings than there are ticks.
pub fn counts(file: &[u8]) -> Contents
    requires { readings (records_of file.now) ≤ ticks }
    ensures { (result.runs ≡ runs (records_of file.now)) × (result.readings ≡ readings (records_of file.now)) }
{
    let mut end = NOWHERE;
    let mut runs = 0;
    let mut readings = 0;
    for i in 0..file.len() / RECORD {
        let b = read(file, i);
        runs += starts_run(end, b);
        readings += b.count as usize;
        end = bucket::end(b);
    }
    Contents { runs, readings }
}

// Refusals 7, 8, 9 and 10: all that a file can be refused for is known before a slot is written.
pub fn inspect(s: Settings, file: &[u8]) -> Result<Contents, Refusal>
    requires { (base_good s.base ≡ true) × (gaps_good s.kind s.gaps ≡ true) }
    ensures { result ≡ inspection (file_verdict s file.now) }
{
    if file.len() % RECORD != 0 {
        return Err(Refusal::Length);
    }
    let kind = s.kind;
    let count = file.len() / RECORD;
    let place = first_fault(kind, file);
    if place < count {
        return Err(Refusal::Record(place));
    }
    let c = counts(file);
    if !runs_allowed(kind, s.gaps, c.runs) {
        return Err(Refusal::Runs);
    }
    if limit(s, c.runs) < count {
        return Err(Refusal::Overfull);
    }
    Ok(c)
}
