// Obeys a short script from standard input and writes what every call answers and leaves. The language is the one that second/src/command.rs
// describes; obeyed are the calls but for the search, the row, the replay, the picture and the readings with a tally, and of the changes state,
// room, set, file, byte, take and reading.

#![tactic(auto)]

mod line;
mod show;

ghost use Rattle.std.specs.Prelude.{◌≤◌, length};

use fields::{none, trace_of};
use line::{Given, Line, Word};
use rule::Refusal;
use std::io::Read;
use trace::Trace;

// What is lent to calls, all 0 at first.
#[derive(Drop)]
pub struct Lent {
    pub room: [i64; 8192],
    pub file: [u8; 65536],
    pub output: [u8; 65536],
    pub ticks: [u32; 4096],
    pub values: [i32; 4096],
}

// What the script has made besides: the state at hand, and how many numbers of the room are lent and how many bytes of the file.
#[derive(Clone, Copy)]
pub struct Held {
    pub trace: Trace,
    pub numbers: usize,
    pub bytes: usize,
}

// The trace after a call: that of an accepted answer.
fn taken(trace: Trace, answer: Result<Trace, Refusal>) -> Trace {
    match answer {
        Ok(next) => next,
        Err(_) => trace,
    }
}

// So many of a list, from an index on: as many as there are.
fn part<T>(list: &[T], from: usize, count: usize) -> &[T] {
    let rest = &list[from.min(list.len())..];
    &rest[..count.min(rest.len())]
}

// A reading, which hands back the trace that it was given where it is refused.
fn read_on(
    rt: &impl Print,
    name: &str,
    trace: Trace,
    answer: Result<Trace, Refusal>,
    room: &[i64],
) -> Trace {
    show::answer(rt, name, trace, answer);
    show::numbers(rt, "room", room);
    show::text(rt, "\n");
    taken(trace, answer)
}

fn open(rt: &impl Print, given: Given, trace: Trace, room: &mut [i64]) -> Trace {
    let answer = Trace::open(given.opening(), room);
    show::answer(rt, "open", trace_of(none()), answer);
    show::numbers(rt, "room", room);
    show::text(rt, "\n");
    taken(trace, answer)
}

fn load(rt: &impl Print, given: Given, trace: Trace, room: &mut [i64], file: &[u8]) -> Trace {
    let answer = loaded::load(given.opening(), file, room);
    show::answer(rt, "load", trace_of(none()), answer);
    show::numbers(rt, "room", room);
    show::bytes(rt, "file", file);
    show::text(rt, "\n");
    taken(trace, answer)
}

fn next(rt: &impl Print, given: Given, trace: Trace, room: &mut [i64]) -> Trace {
    let answer = trace.next(room, given.reading());
    read_on(rt, "next", trace, answer, room)
}

fn late(rt: &impl Print, given: Given, trace: Trace, room: &mut [i64]) -> Trace {
    let answer = trace.late(room, given.tick, given.reading());
    read_on(rt, "late", trace, answer, room)
}

// Many readings in order, which hand back the trace after the accepted ones.
fn next_many(
    rt: &impl Print,
    given: Given,
    trace: Trace,
    room: &mut [i64],
    values: &[i32],
) -> Trace {
    let progress = many::next(trace, room, part(values, given.from, given.values));
    show::fed(rt, "nextmany", progress);
    show::numbers(rt, "room", room);
    show::text(rt, "\n");
    progress.trace
}

// Many late ones.
fn late_many(
    rt: &impl Print,
    given: Given,
    trace: Trace,
    room: &mut [i64],
    ticks: &[u32],
    values: &[i32],
) -> Trace {
    let ticks = part(ticks, given.from, given.ticks);
    let values = part(values, given.from, given.values);
    let progress = many_late::late(trace, room, ticks, values);
    show::fed(rt, "latemany", progress);
    show::numbers(rt, "room", room);
    show::text(rt, "\n");
    progress.trace
}

fn look(rt: &impl Print, given: Given, trace: Trace, room: &[i64]) {
    show::found(rt, trace.lookup(room, given.tick));
    show::numbers(rt, "room", room);
    show::text(rt, "\n");
}

fn save(rt: &impl Print, trace: Trace, room: &[i64], output: &mut [u8]) {
    show::written(rt, saved::save(trace, room, output));
    show::numbers(rt, "room", room);
    show::bytes(rt, "output", output);
    show::text(rt, "\n");
}

fn measure(rt: &impl Print, trace: Trace, room: &[i64]) {
    show::worst(rt, worst::worst(trace, room));
    show::numbers(rt, "room", room);
    show::text(rt, "\n");
}

// A call, whose trace is at hand afterwards.
fn go_on(rt: &impl Print, word: Word, given: Given, held: Held, lent: &mut Lent) -> Trace {
    let room = &mut lent.room[..];
    let room = &mut room[..held.numbers.min(8192)];
    let file = &lent.file[..];
    let file = &file[..held.bytes.min(65536)];
    let ticks = &lent.ticks[..];
    let values = &lent.values[..];
    let trace = held.trace;
    match word {
        Word::Open => open(rt, given, trace, room),
        Word::Load => load(rt, given, trace, room, file),
        Word::Next => next(rt, given, trace, room),
        Word::Late => late(rt, given, trace, room),
        Word::NextMany => next_many(rt, given, trace, room, values),
        Word::LateMany => late_many(rt, given, trace, room, ticks, values),
        Word::State => given.trace(),
        _ => trace,
    }
}

// A call that leaves the trace.
fn ask(rt: &impl Print, word: Word, given: Given, held: Held, lent: &mut Lent) {
    let room = &lent.room[..];
    let room = &room[..held.numbers.min(8192)];
    let output = &mut lent.output[..];
    let trace = held.trace;
    match word {
        Word::Lookup => look(rt, given, trace, room),
        Word::Save => save(rt, trace, room, &mut output[..given.bytes.min(65536)]),
        Word::Worst => measure(rt, trace, room),
        _ => {}
    }
}

// A change of what is lent. What would stand past an end is dropped.
fn change(word: Word, given: Given, lent: &mut Lent) {
    let at = given.at;
    match word {
        Word::Reading if at < 4096 => {
            lent.ticks[at] = given.tick;
            lent.values[at] = given.reading();
        }
        Word::Set if at < 8192 => lent.room[at] = given.value.cast_signed(),
        Word::Byte if at < 65536 => lent.file[at] = (given.value % 256) as u8,
        Word::Take => {
            let count = given.bytes.min(65536);
            let file = &mut lent.file[..];
            let output = &lent.output[..];
            file[..count].copy_from_slice(&output[..count]);
        }
        _ => {}
    }
}

fn obey(rt: &impl Print, word: Word, given: Given, held: Held, lent: &mut Lent) -> Held {
    change(word, given, lent);
    let held = match word {
        Word::Room => Held {
            numbers: given.numbers,
            ..held
        },
        Word::File | Word::Take => Held {
            bytes: given.bytes,
            ..held
        },
        _ => held,
    };
    ask(rt, word, given, held, lent);
    let trace = go_on(rt, word, given, held, lent);
    Held { trace, ..held }
}

fn run(rt: &impl Print, script: &[u8], lent: &mut Lent) {
    let mut held = Held {
        trace: trace_of(none()),
        numbers: 0,
        bytes: 0,
    };
    let mut line = Line::begun(held.trace);
    for byte in script {
        match *byte {
            b'\n' => {
                line = line.ended();
                held = obey(rt, line.word(), line.given, held, lent);
                line = Line::begun(held.trace);
            }
            b' ' => line = line.ended(),
            _ => line = line.with(*byte),
        }
    }
}

// Reads until the buffer is full, the input ends or a read fails. Answers how many bytes it has then.
fn read_full(input: &mut impl Read, buffer: &mut [u8]) -> usize
    ensures { result ≤ length buffer.new }
{
    let mut done = 0;
    while done < buffer.len() {
        let Ok(count) = input.read(&mut buffer[done..]) else {
            return done;
        };
        if count == 0 {
            return done;
        }
        done += count;
    }
    done
}

fn main(rt: HostRuntime) {
    let mut script = [0u8; 65536];
    let count = read_full(&mut rt.stdin(), &mut script);
    let mut lent = Lent {
        room: [0; 8192],
        file: [0; 65536],
        output: [0; 65536],
        ticks: [0; 4096],
        values: [0; 4096],
    };
    run(&rt, &script[..count], &mut lent);
}
