// The listing program: a trace's lines from standard input, its buckets and their total to standard output, or the first refused line.

#![tactic(auto)]

use ending::Failure;
use showing::show;
use std::io::Read;

// A refused line ends the run, and nothing more is read. Where the input cannot be read to its end, what was read of it is not shown.
fn list(rt: &HostRuntime) -> Result<(), Failure> {
    let mut room = [0i64; 3076];
    let mut line = [0u8; 64];
    let mut piece = [0u8; 65536];
    let mut input = rt.stdin();
    let mut state = begin::begin(&mut room);
    'pieces: while !begin::ended(state) {
        let n = input.read(&mut piece).map_err(|_| Failure::Unread)?;
        if n == 0 {
            break;
        }
        state = gathering::piece(state, &mut room, &mut line, &piece[..n]);
    }
    state = reader::rest(state, &mut room, &line);
    let mut out = [0u8; 49216];
    let n = show(state, &room, &mut out);
    rt.write_all(&out[..n]).map_err(|_| Failure::Unwritten)?;
    if begin::ended(state) {
        return Err(Failure::Refused);
    }
    Ok(())
}

// Nothing is said of a whole listing. Where the line cannot be written, nothing more can be said.
fn main(rt: HostRuntime) {
    if let Err(failure) = list(&rt) {
        let _ = eprintln!(rt; "listing: {failure}");
    }
}
