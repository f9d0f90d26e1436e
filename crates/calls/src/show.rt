// The lines that are written: what a call answers, and the checksum of what it was lent.
use fields::fields_of;
use many::Progress;
use rule::{Found, Refusal};
use trace::Trace;

// What cannot be written is left out, and the script goes on.
pub(crate) fn text(rt: &impl Print, text: &str) {
    let _ = rt.print(text);
}

fn unsigned(rt: &impl Print, number: u64) {
    let _ = print!(rt; " {number}");
}

fn signed(rt: &impl Print, number: i32) {
    let _ = print!(rt; " {number}");
}

fn checksum(rt: &impl Print, name: &str, sum: u64) {
    let _ = print!(rt; " {name} {sum:016x}");
}

fn refused(rt: &impl Print, refusal: Refusal) {
    unsigned(rt, refusal::number(refusal) as u64);
    unsigned(rt, refusal::place(refusal) as u64);
}

fn state(rt: &impl Print, trace: Trace) {
    let f = fields_of(trace.state);
    // Each by a write of its own: of what an output refuses the rest may still be taken.
    for number in [
        f.kind, f.base, f.gaps, f.used, f.runs, f.readings, f.edition,
    ] {
        unsigned(rt, number as u64);
    }
}

// Where it is refused, the trace is the given one.
pub(crate) fn answer(rt: &impl Print, name: &str, given: Trace, answer: Result<Trace, Refusal>) {
    text(rt, name);
    match answer {
        Ok(trace) => {
            text(rt, " 0 0");
            state(rt, trace);
        }
        Err(refusal) => {
            refused(rt, refusal);
            state(rt, given);
        }
    }
}

pub(crate) fn fed(rt: &impl Print, name: &str, progress: Progress) {
    text(rt, name);
    let ending = progress.ending;
    match ending {
        Ok(()) => text(rt, " 0 0"),
        Err(refusal) => refused(rt, refusal),
    }
    state(rt, progress.trace);
    unsigned(rt, progress.accepted as u64);
}

pub(crate) fn found(rt: &impl Print, found: Result<Found, Refusal>) {
    text(rt, "lookup");
    match found {
        Ok(found) => {
            text(rt, " 0 0");
            signed(rt, found.level);
            unsigned(rt, found.error as u64);
            signed(rt, found.least);
            signed(rt, found.largest);
        }
        Err(refusal) => {
            refused(rt, refusal);
            text(rt, " 0 0 0 0");
        }
    }
}

pub(crate) fn worst(rt: &impl Print, measured: Result<u32, Refusal>) {
    text(rt, "worst");
    match measured {
        Ok(error) => {
            text(rt, " 0 0");
            unsigned(rt, error as u64);
        }
        Err(refusal) => {
            refused(rt, refusal);
            text(rt, " 0");
        }
    }
}

pub(crate) fn written(rt: &impl Print, written: Result<usize, Refusal>) {
    text(rt, "save");
    match written {
        Ok(count) => {
            text(rt, " 0 0");
            unsigned(rt, count as u64);
        }
        Err(refusal) => {
            refused(rt, refusal);
            text(rt, " 0");
        }
    }
}

fn mixed(sum: u64, number: u64) -> u64 {
    let a = sum ^ number;
    let b = a ^ (a << 13);
    let c = b ^ (b >> 7);
    let d = c ^ (c << 17);
    d.wrapping_add(11400714819323198485)
}

// The checksum of lent numbers, each by its bits in two's complement.
pub(crate) fn numbers(rt: &impl Print, name: &str, numbers: &[i64]) {
    let mut sum = numbers.len() as u64;
    for number in numbers {
        sum = mixed(sum, number.cast_unsigned());
    }
    checksum(rt, name, sum);
}

pub(crate) fn bytes(rt: &impl Print, name: &str, bytes: &[u8]) {
    let mut sum = bytes.len() as u64;
    for byte in bytes {
        sum = mixed(sum, u64::from(*byte));
    }
    checksum(rt, name, sum);
}
