// The number by which a bench is told how often to run.

#![tactic(auto)]

ghost use Rattle.std.specs.Prelude.{◌≡◌};
ghost use Rattle.timing.specs.Counts.{counted, count_of, CountRead};

use std::io;
use std::io::Read;

// How many bytes of the input are looked at.
const LINE: usize = 64;

// A number with one digit more: no digit is passed over but where eight are there, or where the byte is none.
fn counted(count: u32, byte: u8) -> u32
    ensures { result ≡ counted count byte }
{
    if byte.is_ascii_digit() && count < 10_000_000 {
        count * 10 + (byte - b'0') as u32
    } else {
        count
    }
}

// The digits of the input as one decimal number, of at most eight digits.
pub fn count_in(input: &[u8]) -> u32
    ensures { result ≡ count_of input.now }
{
    input.iter().fold(0, |count, byte| counted(count, *byte))
}

// The count in what one read of the input gives.
pub fn read_count<R: Read>(input: &mut R) -> io::Result<u32>
    ensures { CountRead (R.remaining input.old) (R.remaining input.new) result }
{
    // `read` fills a buffer and tells how far: the length stands beside it for one line
    let mut line = [0; LINE];
    let length = input.read(&mut line)?;
    Ok(count_in(&line[..length]))
}
