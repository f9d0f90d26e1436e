// How numbers and lines are written and read, in specs/; here only the types of what is read.

#![tactic(auto)]

// What a line means that can be read.
#[derive(Clone, Copy)]
pub enum Line {
    Steps(u32),
    Late(u32),
    Alone(i32),
    Pair(u32, i32),
}
