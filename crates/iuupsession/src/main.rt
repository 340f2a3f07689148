// Reads a session script, plays it line by line, and prints what each call answers and reports.

#![tactic(auto)]

mod answer;
mod command;
mod driving;
mod preparing;
mod printing;
mod reading;
mod session;

use session::Session;
use std::io;
use std::io::{BufRead, BufReader, BufWriter, Write};

// What a reader has at a time, and so what a line has room for at first.
const PIECE: usize = 8192;

// Reads on to the end of a line, and tells whether a line feed was there: the last line may end without.
// The line feed is not kept, so that a line needs no room beyond its own.
fn gather(input: &mut impl BufRead, line: &mut Vec<u8>) -> io::Result<bool> {
    for _ in 0..u64::MAX {
        let piece = input.fill_buf()?;
        let count = piece.len();
        let end = piece.iter().position(|byte| *byte == b'\n');
        line.extend_from_slice(&piece[..end.unwrap_or(count)])?;
        input.consume(end.map_or(count, |end| end + 1));
        if end.is_some() || count == 0 {
            return Ok(end.is_some());
        }
    }
    Ok(false)
}

fn main(rt: HostRuntime) -> io::Result<()> {
    let mut input = BufReader::new(rt.alloc(), rt.stdin())?;
    let mut out = BufWriter::new(rt.alloc(), rt.stdout())?;
    let mut session = Session::new();
    let mut line = Vec::with_capacity(rt.alloc(), PIECE)?;
    for _ in 0..u64::MAX {
        // a reader at the other end of a pipe waits for what was played before more is read
        if !input.buffer().contains(&b'\n') {
            out.flush()?;
        }
        line.clear();
        let ended = gather(&mut input, &mut line)?;
        session.play(line.as_slice(), &mut out)?;
        if !ended {
            break;
        }
    }
    out.flush()
}
