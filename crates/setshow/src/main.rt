// Reads orders for a combination set, one to a line, and shows what comes of them:
//   draft N TI TYPE           opens a draft (TI 0 or 1)
//   add RFCI IPTI SIZE ..     adds a combination with the size of each subflow in bits
//   close                     closes the draft: the links as frames, and where the subflows of each combination lie
//   find SIZE ..              searches the set that was closed last for a combination of these sizes

#![tactic(auto)]

mod bench;
mod orders;
mod showing;

use bench::{Bench, Complaint};
use orders::{Misread, read_numbers, read_order};
use std::io;

fn main(rt: HostRuntime) -> io::Result<()> {
    let mut bench = Bench::new();
    for line in rt.lines(rt.alloc()) {
        let line = line?;
        let answer = match read_numbers(line.as_str(), rt.alloc()) {
            Ok(numbers) => match read_order(line.as_str(), numbers.as_slice()) {
                Some(order) => bench.obey(order),
                None => Err(Complaint::Unclear),
            },
            Err(Misread::Unclear) => Err(Complaint::Unclear),
            Err(Misread::Memory(error)) => return Err(error.into()),
        };
        match answer {
            Ok(answer) => print!(rt; "{answer}")?,
            Err(complaint) => println!(rt; "{complaint}")?,
        }
    }
    Ok(())
}
