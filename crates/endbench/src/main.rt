// Receives user data at a radio end over and over, as often as standard input says: 5, 40 and 500 octets, sets of 1 and 32 combinations, both lines.
// What was delivered goes to standard output, and the time that it took to standard error.

#![tactic(auto)]

use bearer::settings::{Numbering, Settings, Timing};
use building::answer::build_ack;
use building::user_data::build_user_data;
use cells::count::CellCount;
use cells::store::CellStore;
use frames::data_type::DataType;
use frames::frame::DataHeader;
use frames::number::Number;
use frames::octets::Octets;
use frames::procedure::Procedure;
use frames::refusal::Refusal;
use lines::line::Line;
use lines::queue::Queue;
use lines::store::Store;
use radio_end::received::Received;
use radio_end::state::RadioEnd;
use reports::report::Report;
use ring::size::RingSize;
use ring::store::RingStore;
use sets::closed::Set;
use sets::draft::Draft;
use sets::opening::Opening;
use std::io;
use std::time::Instant;
use timing::read_count;

// One case: how many combinations the set has, and the user data, of as many bits as each of them.
#[derive(Drop)]
struct Case<'a> {
    combinations: u8,
    payload: &'a [u8],
}

// A set of combinations of one size, RFCI 0 on.
fn set_of(combinations: u8, bits: u16) -> Option<Set> {
    let mut draft = Draft::open(Opening::new(1, false, 0).ok()?);
    // RFCIs are counted: nothing is indexed
    for rfci in 0..combinations {
        let _ = draft.add(rfci, 0, &[bits]);
    }
    let mut place = None;
    let _ = draft.close(&mut place);
    place
}

fn settings() -> Option<Settings> {
    let timing = Timing {
        ticks: 10,
        repeats: 3,
    };
    Settings::new(timing, timing, timing, Numbering::Timed, false, 0).ok()
}

// The set is offered, and each link acknowledged.
fn bring_into_force<L: Line>(end: &mut RadioEnd<L>, set: Set, report: &mut Report) {
    let _ = end.start(set, report);
    let mut number = Number::first();
    // as often as a set can have links: nothing is indexed
    for _ in 0..4u8 {
        let ack = build_ack(Procedure::Initialisation, number);
        let _ = end.receive(ack.as_slice(), report);
        number = number.following();
    }
}

fn receive_often<L: Line>(
    end: &mut RadioEnd<L>,
    octets: &[u8],
    times: u32,
    report: &mut Report,
) -> usize {
    (0..times)
        .filter(|_| matches!(end.receive(octets, report), Ok(Received::Delivered)))
        .count()
}

// The text of a run is this bench's own, as in `framebench`: a library function that prints would have nothing to promise.
fn measure_frame<L: Line + Drop>(
    rt: &HostRuntime,
    name: &str,
    line: L,
    set: Set,
    frame: &Octets,
    times: u32,
) -> io::Result<()> {
    // settings, sets and frames that cannot be made are left out: none of the cases below is one
    let Some(settings) = settings() else {
        return Ok(());
    };
    let mut report = Report::new();
    let mut end = RadioEnd::open(settings, line);
    bring_into_force(&mut end, set, &mut report);
    let length = frame.as_slice().len();
    let start = Instant::now(rt)?;
    let delivered = receive_often(&mut end, frame.as_slice(), times, &mut report);
    let micros = start.elapsed(rt)?.as_micros();
    println!(rt; "{name}: {length} octets, delivered {delivered} of {times}")?;
    eprintln!(rt; "{name} {length} {times} {micros}")
}

fn measure<L: Line + Drop>(
    rt: &HostRuntime,
    name: &str,
    line: L,
    case: &Case<'_>,
    times: u32,
) -> io::Result<()> {
    let Ok(bits) = u16::try_from(case.payload.len().saturating_mul(8)) else {
        return Ok(());
    };
    let Some(set) = set_of(case.combinations, bits) else {
        return Ok(());
    };
    // the last combination of the set, which is found last
    let rfci = case.combinations.saturating_sub(1);
    let header = DataHeader {
        data_type: DataType::Checked,
        number: 0,
        fqc: 0,
        rfci,
    };
    match build_user_data(header, bits as usize, case.payload) {
        Ok(frame) => measure_frame(rt, name, line, set, &frame, times),
        Err(_) => println!(rt; "{name}: not built"),
    }
}

fn measure_on<S: Store + Drop>(
    rt: &HostRuntime,
    name: &str,
    size: Result<S::Size, Refusal>,
    case: &Case<'_>,
    times: u32,
) -> io::Result<()> {
    match size {
        Ok(size) => measure(rt, name, Queue::<S>::new(size), case, times),
        Err(_) => Ok(()),
    }
}

fn measure_both(rt: &HostRuntime, case: &Case<'_>, times: u32) -> io::Result<()> {
    let combinations = case.combinations;
    println!(rt; "a set of {combinations}")?;
    measure_on::<CellStore>(rt, "cells", CellCount::new(32), case, times)?;
    measure_on::<RingStore>(rt, "ring", RingSize::new(65536), case, times)
}

fn measure_sizes(rt: &HostRuntime, combinations: u8, times: u32) -> io::Result<()> {
    let payloads: [&[u8]; 3] = [&[0x55; 5], &[0x55; 40], &[0x55; 500]];
    for payload in payloads {
        let case = Case {
            combinations,
            payload,
        };
        measure_both(rt, &case, times)?;
    }
    Ok(())
}

fn main(rt: HostRuntime) -> io::Result<()> {
    let times = read_count(&mut rt.stdin())?;
    measure_sizes(&rt, 1, times)?;
    measure_sizes(&rt, 32, times)
}
