// Reads lines of hexadecimal, and prints for each frame its type, header length and payload length, or "no" and the refusal.

#![tactic(auto)]

use frames::header::Header;
use frames::refusal::Refusal;
use showing::gathering::Gathered;
use std::io;
use std::io::{BufWriter, Read, Write};

// A `Result` is not this program's own: a type for its print would be no plainer.
fn print_answer(answer: Result<Header, Refusal>, out: &mut impl Write) -> io::Result<()> {
    match answer {
        Ok(header) => writeln!(out, "{header}"),
        Err(refusal) => writeln!(out, "no {refusal}"),
    }
}

// Shows the lines that end in a piece of the input. What follows the last of them stays open.
fn show_lines(piece: &[u8], open: &mut Option<Gathered>, out: &mut impl Write) -> io::Result<()> {
    for byte in piece {
        if *byte == b'\n' {
            print_answer(open.get_or_insert_with(Gathered::new).show(), out)?;
            *open = None;
        } else {
            open.get_or_insert_with(Gathered::new).push(*byte);
        }
    }
    Ok(())
}

fn main(rt: HostRuntime) -> io::Result<()> {
    let mut input = rt.stdin();
    let mut out = BufWriter::new(rt.alloc(), rt.stdout())?;
    // `read` fills a buffer and tells how far: lines of any length go through it, and none is held whole
    let mut piece = [0; 8192];
    let mut open = None;
    // until no more comes: nothing is counted, the range shows that the loop ends
    for _ in 0..u64::MAX {
        let count = input.read(&mut piece)?;
        if count == 0 {
            break;
        }
        show_lines(&piece[..count], &mut open, &mut out)?;
        // a reader at the other end of a pipe waits for each piece
        out.flush()?;
    }
    // a last line may end without a line feed
    if let Some(line) = open {
        print_answer(line.show(), &mut out)?;
    }
    out.flush()
}
