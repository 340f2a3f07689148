// The decision for a line.
ghost use Rattle.std.specs.Prelude.{◌≡◌};
ghost use Rattle.showing.specs.Shown.{shown};

use frames::header::{Header, read_header};
use frames::hex::read_hex;
use frames::refusal::Refusal;

// The header of the frame that a line writes in hexadecimal.
pub fn show(line: &[u8]) -> Result<Header, Refusal>
    ensures { result ≡ shown line.now }
{
    read_header(read_hex(line)?.as_slice())
}
