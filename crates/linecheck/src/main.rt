// Fills each kind of line to the brim and drains it over several wraps, and compares what comes out with what went in.

#![tactic(auto)]

use cells::cells::Cells;
use cells::count::CellCount;
use cells::store::CellStore;
use frames::octets::{LONGEST, Octets};
use frames::refusal::Refusal;
use lines::line::Line;
use lines::queue::Queue;
use lines::sender::Sender;
use lines::store::Store;
use ring::ring::Ring;
use ring::size::RingSize;
use ring::store::RingStore;
use std::io;

// Beyond every frame, so that the rest of a buffer is seen too.
const BUFFER: usize = 600;

const STALE: u8 = 0xEE;

// The shortest and the longest, and on both sides of one octet of length, in turn.
const LENGTHS: [usize; 6] = [1, 512, 2, 511, 255, 256];

// The frame with this serial number: its octets differ from frame to frame and from place to place.
fn frame_of(serial: usize) -> Octets {
    let length = LENGTHS[serial % 6];
    let mut octets = [0; LONGEST];
    let mut octet = (serial % 251) as u8;
    for place in octets.iter_mut().take(length) {
        *place = octet;
        octet = octet.wrapping_mul(5).wrapping_add(7);
    }
    // no length is more than a frame has
    Octets::of_slice(&octets[..length.min(LONGEST)]).unwrap_or(Octets::new())
}

fn all_stale(octets: &[u8]) -> bool {
    octets.iter().all(|octet| *octet == STALE)
}

// Whether the buffer holds the frame with this serial number, and is untouched behind it.
fn is_frame(out: &[u8], length: usize, serial: usize) -> bool {
    out.split_at_checked(length).is_some_and(|(frame, rest)| frame == frame_of(serial).as_slice()
        && all_stale(rest))
}

fn is_sent<L: Line>(sender: &mut Sender<L>, frame: &[u8]) -> bool {
    sender.send(frame).is_ok()
}

// Whether the line refuses a frame of this length, and says so when it is asked.
fn refuses<L: Line>(sender: &mut Sender<L>, frame: &[u8]) -> bool {
    !sender.takes_length(frame.len()) && !is_sent(sender, frame)
}

// Whether the line says that it takes the frame with this serial number, and takes it.
fn takes<L: Line>(sender: &mut Sender<L>, serial: usize) -> bool {
    let octets = frame_of(serial);
    let frame = octets.as_slice();
    sender.takes_length(frame.len()) && is_sent(sender, frame)
}

// Puts frames from this serial number on until one is refused, and tells the number of that one.
fn fill<L: Line>(sender: &mut Sender<L>, from: usize) -> usize {
    let until = from.saturating_add(1000);
    (from..until)
        .find(|serial| !takes(sender, *serial))
        .unwrap_or(until)
}

// Whether the line gives the frame with this serial number.
fn gives<L: Line>(sender: &mut Sender<L>, serial: usize) -> bool {
    let mut out = [STALE; BUFFER];
    matches!(sender.take(&mut out), Ok(Some(n)) if is_frame(&out, n, serial))
}

// Takes the frames with these serial numbers, and tells how many were not as they were put.
fn drain<L: Line>(sender: &mut Sender<L>, from: usize, until: usize) -> usize {
    (from..until)
        .filter(|serial| !gives(sender, *serial))
        .count()
}

// Whether nothing waits any more, and a buffer that is too small is refused.
fn is_empty<L: Line>(sender: &mut Sender<L>) -> bool {
    let mut short = [STALE; LONGEST - 1];
    let mut out = [STALE; BUFFER];
    matches!(sender.take(&mut short), Err(Refusal::BufferTooSmall))
        && matches!(sender.take(&mut out), Ok(None))
        && all_stale(&out)
        && all_stale(&short)
}

// All waiting frames but one where there are more, so that each round begins at another place of the store.
fn up_to(oldest: usize, next: usize) -> usize {
    if next.saturating_sub(oldest) > 1 {
        next - 1
    } else {
        next
    }
}

// Tells how many frames went through, and how many steps were wrong.
fn rounds<L: Line>(sender: &mut Sender<L>) -> (usize, usize) {
    let long = [0; LONGEST + 1];
    let mut oldest = 0;
    let mut next = 0;
    let mut wrong: usize = 0;
    // rounds are repeated, and nothing is indexed
    for _ in 0..9u32 {
        next = fill(sender, next);
        let refused = refuses(sender, &long) && refuses(sender, &[]);
        let last = up_to(oldest, next);
        wrong = wrong
            .saturating_add(usize::from(!refused))
            .saturating_add(drain(sender, oldest, last));
        oldest = last;
    }
    wrong = wrong.saturating_add(drain(sender, oldest, next));
    (next, wrong.saturating_add(usize::from(!is_empty(sender))))
}

// Puts a frame on both lines where both take it.
fn put_both<A: Line, B: Line>(a: &mut Sender<A>, b: &mut Sender<B>, serial: usize) -> bool {
    let octets = frame_of(serial);
    let frame = octets.as_slice();
    let n = frame.len();
    a.takes_length(n) && b.takes_length(n) && is_sent(a, frame) && is_sent(b, frame)
}

// Whether both lines give the frame with this serial number, and leave the same in their buffers.
fn take_both<A: Line, B: Line>(a: &mut Sender<A>, b: &mut Sender<B>, serial: usize) -> bool {
    let mut first = [STALE; BUFFER];
    let mut second = [STALE; BUFFER];
    match (a.take(&mut first), b.take(&mut second)) {
        (Ok(Some(m)), Ok(Some(n))) => m == n && first == second && is_frame(&first, n, serial),
        _ => false,
    }
}

// Tells how many frames went through both lines, and how many differed.
fn side_by_side<A: Line, B: Line>(a: &mut Sender<A>, b: &mut Sender<B>) -> (usize, usize) {
    let mut taken: usize = 0;
    let mut next: usize = 0;
    let mut differ: usize = 0;
    // steps are repeated, and nothing is indexed
    for _ in 0..2000u32 {
        if put_both(a, b, next) {
            next = next.wrapping_add(1);
        } else {
            differ = differ.saturating_add(usize::from(!take_both(a, b, taken)));
            taken = taken.wrapping_add(1);
        }
    }
    let rest = (taken..next)
        .filter(|serial| !take_both(a, b, *serial))
        .count();
    (next, differ.saturating_add(rest))
}

fn show<S: Store + Drop>(
    rt: &impl Print,
    places: usize,
    kind: &str,
    size: Result<S::Size, Refusal>,
) -> io::Result<()> {
    match size {
        Err(refusal) => println!(rt; "{places} {kind}: no {refusal}"),
        Ok(size) => {
            let (through, wrong) = rounds(&mut Sender::new(Queue::<S>::new(size)));
            println!(rt; "{places} {kind}: {through} frames, {wrong} wrong")
        }
    }
}

fn show_both(rt: &impl Print, cells: usize, octets: usize) -> io::Result<()> {
    let (Ok(count), Ok(size)) = (CellCount::new(cells), RingSize::new(octets)) else {
        return println!(rt; "{cells} cells beside {octets} octets: not made");
    };
    let (through, differ) = side_by_side(
        &mut Sender::new(Cells::new(count)),
        &mut Sender::new(Ring::new(size)),
    );
    println!(rt; "{cells} cells beside {octets} octets: {through} frames, {differ} differ")
}

fn main(rt: HostRuntime) -> io::Result<()> {
    for cells in [0, 1, 2, 5, 32, 33] {
        show::<CellStore>(&rt, cells, "cells", CellCount::new(cells))?;
    }
    for octets in [513, 514, 515, 1300, 65536, 65537] {
        show::<RingStore>(&rt, octets, "octets", RingSize::new(octets))?;
    }
    for (cells, octets) in [(1, 65536), (5, 1300), (32, 514), (32, 65536)] {
        show_both(&rt, cells, octets)?;
    }
    Ok(())
}
