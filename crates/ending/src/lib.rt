// Why a run of a program is not whole. What starts the program makes an exit status from the line that says it.

#![tactic(auto)]

use std::fmt;

#[derive(Clone, Copy, Drop)]
pub enum Failure {
    // The input cannot be read.
    Unread,
    // The output cannot be written.
    Unwritten,
    // The input is refused.
    Refused,
}

impl fmt::Display for Failure {
    ghost use Rattle.std.specs.Prelude.{Some};
    ghost use Rattle.ending.specs.Words.{said};

    ghost output = { λ f. Some (said f) };

    fn fmt<W: fmt::Write>(&self, f: &mut fmt::Formatter<W>) -> fmt::Result {
        match self {
            Failure::Unread => f.write_str("the input cannot be read"),
            Failure::Unwritten => f.write_str("the output cannot be written"),
            Failure::Refused => f.write_str("the input is refused"),
        }
    }
}
