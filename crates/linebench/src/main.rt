// Puts and takes frames on each kind of line, as many as it is told, so that a clock outside can time it.

#![tactic(auto)]

use anyhow::Context;
use cells::count::CellCount;
use cells::store::CellStore;
use frames::octets::LONGEST;
use frames::refusal::Refusal;
use lines::line::Line;
use lines::queue::Queue;
use lines::store::Store;
use ring::size::RingSize;
use ring::store::RingStore;
use std::env;
use std::rt::Env;

const USAGE: &str = "cells or ring, the length of a frame, and how many";

// How many frames wait while others go through.
const WAITING: u32 = 8;

// The first octet of what is taken, if anything is.
fn taken<L: Line>(line: &mut L, out: &mut [u8]) -> Option<u32> {
    line.take(out).ok()??;
    out.first().map(|first| u32::from(*first))
}

// Puts the frame as often as it is told, each time with another first octet, and takes the oldest while enough others wait.
// There is no sum where there was nothing to take.
fn through<L: Line>(line: &mut L, frame: &mut [u8], out: &mut [u8], count: u32) -> Option<u32> {
    let mut sum: u32 = 0;
    // the serial number is what is sent: nothing is indexed
    for serial in 0..count {
        if let Some(first) = frame.first_mut() {
            *first = (serial % 256) as u8;
        }
        let _ = line.put(frame);
        if serial >= WAITING {
            sum = sum.wrapping_add(taken(line, out)?);
        }
    }
    Some(sum)
}

// The frame and the buffer are made here, so that the loop only puts and takes. No frame is longer than the longest.
fn sum_on<L: Line>(line: &mut L, length: usize, count: u32) -> Option<u32> {
    let mut frame = [0; LONGEST];
    let mut out = [0; LONGEST];
    through(line, frame.get_mut(..length)?, &mut out, count)
}

fn sum_in<S: Store + Drop>(
    size: Result<S::Size, Refusal>,
    length: usize,
    count: u32,
) -> Option<u32> {
    sum_on(&mut Queue::<S>::new(size.ok()?), length, count)
}

fn run(rt: &(impl Env + Print + Alloc)) -> anyhow::Result<()> {
    let mut words = env::args(rt)?;
    let _ = words.next();
    let name = words.next().context(USAGE)?;
    let length = words.next().context(USAGE)?;
    let count = words.next().context(USAGE)?;
    let length = length.parse::<usize>()?;
    let count = count.parse::<u32>()?;
    let sum = match name.as_str() {
        "cells" => sum_in::<CellStore>(CellCount::new(32), length, count),
        // any other word is a ring
        _ => sum_in::<RingStore>(RingSize::new(65536), length, count),
    };
    // of frames that no line takes the sum is that of none
    let sum = sum.unwrap_or(0);
    println!(rt; "{name}: {count} frames of {length} octets, sum {sum}")?;
    Ok(())
}

fn main(rt: HostRuntime) -> anyhow::Result<()> {
    run(&rt)
}
