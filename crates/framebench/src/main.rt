// Reads frames over and over, as often as standard input says: user data with 5, 40 and 500 octets, and an Ack.
// What was read goes to standard output, and the time that it took to standard error.

#![tactic(auto)]

use building::answer::build_ack;
use building::user_data::build_user_data;
use frames::data_type::DataType;
use frames::frame::{AckNack, DataHeader, Frame};
use frames::number::Number;
use frames::octets::Octets;
use frames::procedure::Procedure;
use frames::reading::read;
use payloads::answer::read_ack;
use payloads::check::check_user_data;
use std::io;
use std::time::Instant;
use timing::read_count;

// The whole of a frame: header, fields and checksums.
fn is_accepted(octets: &[u8]) -> bool {
    match read(octets) {
        Ok(Frame::UserData(user_data)) => check_user_data(user_data).is_ok(),
        Ok(Frame::Answer(answer)) if answer.ack_nack == AckNack::Ack => read_ack(answer).is_ok(),
        _ => false,
    }
}

fn read_often(octets: &[u8], times: u32) -> usize {
    (0..times).filter(|_| is_accepted(octets)).count()
}

// What is printed of a run is each bench's own text: a library function that prints would have nothing to promise, and one that ran a closure would have to ask that it can be called.
fn measure(rt: &HostRuntime, name: &str, frame: &Octets, times: u32) -> io::Result<()> {
    let octets = frame.as_slice();
    let length = octets.len();
    let start = Instant::now(rt)?;
    let accepted = read_often(octets, times);
    let micros = start.elapsed(rt)?.as_micros();
    println!(rt; "{name}: {length} octets, accepted {accepted} of {times}")?;
    eprintln!(rt; "{name} {length} {times} {micros}")
}

fn measure_data(rt: &HostRuntime, name: &str, payload: &[u8], times: u32) -> io::Result<()> {
    let header = DataHeader {
        data_type: DataType::Checked,
        number: 1,
        fqc: 0,
        rfci: 2,
    };
    let bits = payload.len().saturating_mul(8);
    match build_user_data(header, bits, payload) {
        Ok(frame) => measure(rt, name, &frame, times),
        Err(_) => println!(rt; "{name}: not built"),
    }
}

fn main(rt: HostRuntime) -> io::Result<()> {
    let times = read_count(&mut rt.stdin())?;
    let cases: [(&str, &[u8]); 3] = [
        ("user data 5", &[0x55; 5]),
        ("user data 40", &[0x55; 40]),
        ("user data 500", &[0x55; 500]),
    ];
    for (name, payload) in cases {
        measure_data(&rt, name, payload, times)?;
    }
    let ack = build_ack(Procedure::Initialisation, Number::first());
    measure(&rt, "Ack", &ack, times)
}
