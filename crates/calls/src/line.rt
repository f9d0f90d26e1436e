// A script read byte by byte: a line's word and then its numbers, by their names.
use fields::{Fields, Named, fields_of, opening_of, trace_of};
use rule::Opening;
use trace::Trace;

// What a line asks.
#[derive(Clone, Copy)]
pub enum Word {
    Open,
    Next,
    Late,
    Load,
    State,
    Lookup,
    Save,
    Worst,
    NextMany,
    LateMany,
    Reading,
    Set,
    Byte,
    Take,
    Room,
    File,
    Other,
}

fn word_of(letters: [u8; 8]) -> Word {
    match &letters {
        b"\0\0\0\0open" => Word::Open,
        b"\0\0\0\0next" => Word::Next,
        b"\0\0\0\0late" => Word::Late,
        b"\0\0\0\0load" => Word::Load,
        b"\0\0\0state" => Word::State,
        b"\0\0lookup" => Word::Lookup,
        b"\0\0\0\0save" => Word::Save,
        b"\0\0\0worst" => Word::Worst,
        b"nextmany" => Word::NextMany,
        b"latemany" => Word::LateMany,
        b"\0reading" => Word::Reading,
        b"\0\0\0\0\0set" => Word::Set,
        b"\0\0\0\0byte" => Word::Byte,
        b"\0\0\0\0take" => Word::Take,
        b"\0\0\0\0room" => Word::Room,
        b"\0\0\0\0file" => Word::File,
        _ => Word::Other,
    }
}

// The numbers of a command.
#[derive(Clone, Copy)]
pub struct Given {
    pub state: Fields,
    pub size: usize,
    pub by: usize,
    pub numbers: usize,
    pub bytes: usize,
    pub at: usize,
    pub from: usize,
    pub ticks: usize,
    pub values: usize,
    pub tick: u32,
    pub value: u64,
}

fn low(number: u64) -> u32 {
    (number % 4294967296) as u32
}

impl Given {
    // Names that are not given stand for the state at hand, any other for 0.
    fn at_hand(trace: Trace) -> Given {
        Given {
            state: fields_of(trace.state),
            size: 0,
            by: 0,
            numbers: 0,
            bytes: 0,
            at: 0,
            from: 0,
            ticks: 0,
            values: 0,
            tick: 0,
            value: 0,
        }
    }

    fn with(self, name: [u8; 8], number: u64) -> Given {
        let mut next = self;
        let count = number as usize;
        match &name {
            b"\0\0\0\0kind" => next.state.kind = count,
            b"\0\0\0\0base" => next.state.base = count,
            b"\0\0\0\0gaps" => next.state.gaps = count,
            b"\0\0\0\0used" => next.state.used = count,
            b"\0\0\0\0runs" => next.state.runs = count,
            b"readings" => next.state.readings = count,
            b"\0edition" => next.state.edition = count,
            b"\0\0\0\0size" => next.size = count,
            b"\0\0\0\0\0\0by" => next.by = count,
            b"\0numbers" => next.numbers = count,
            b"\0\0\0bytes" => next.bytes = count,
            b"\0\0\0\0\0\0at" => next.at = count,
            b"\0\0\0\0from" => next.from = count,
            b"\0\0\0ticks" => next.ticks = count,
            b"\0\0values" => next.values = count,
            b"\0\0\0\0tick" => next.tick = low(number),
            b"\0\0\0value" => next.value = number,
            _ => {}
        }
        next
    }

    pub(crate) fn opening(self) -> Opening {
        opening_of(Named {
            kind: self.state.kind,
            size: self.size,
            gaps: self.state.gaps,
            by: self.by,
            edition: self.state.edition,
        })
    }

    pub(crate) fn trace(self) -> Trace {
        trace_of(self.state)
    }

    pub(crate) fn reading(self) -> i32 {
        low(self.value).cast_signed()
    }
}

// What is read so far of a line: its word, the numbers given, and letters, name, number and sign of what is at hand. Of letters the last eight are
// kept, with zeros before fewer.
#[derive(Clone, Copy)]
pub struct Line {
    word: [u8; 8],
    pub given: Given,
    letters: [u8; 8],
    name: [u8; 8],
    number: u64,
    negative: bool,
}

impl Line {
    pub(crate) fn begun(trace: Trace) -> Line {
        Line {
            word: [0; 8],
            given: Given::at_hand(trace),
            letters: [0; 8],
            name: [0; 8],
            number: 0,
            negative: false,
        }
    }

    pub(crate) fn word(self) -> Word {
        word_of(self.word)
    }

    // Behind a word or a number.
    pub(crate) fn ended(self) -> Line {
        let number = if self.negative {
            self.number.wrapping_neg()
        } else {
            self.number
        };
        Line {
            word: if self.word == [0; 8] {
                self.letters
            } else {
                self.word
            },
            given: self.given.with(self.name, number),
            letters: [0; 8],
            name: [0; 8],
            number: 0,
            negative: false,
        }
    }

    // Within a word, a name or a number.
    pub(crate) fn with(self, byte: u8) -> Line {
        let mut next = self;
        match byte {
            b'=' => next.name = self.letters,
            b'-' => next.negative = true,
            _ if self.name == [0; 8] => {
                next.letters.rotate_left(1);
                next.letters[7] = byte;
            }
            _ => {
                let digit = u64::from(byte).wrapping_sub(48);
                next.number = self.number.wrapping_mul(10).wrapping_add(digit);
            }
        }
        next
    }
}
