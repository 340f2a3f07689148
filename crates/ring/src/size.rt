// How many octets a ring has: room for one frame of the greatest length, up to 65,536.
ghost use Rattle.std.specs.Prelude.{◌≡◌};
ghost use Rattle.ring.specs.Sizes.{octets_in};

use frames::octets::LONGEST;
use frames::refusal::Refusal;
use lines::size::Size;

// A frame of the greatest length has room in the smallest ring.
pub const LEAST: usize = LONGEST + 2;

// The most octets that a ring can have.
pub const GREATEST: usize = 65536;

pub type RingSize = Size<LEAST, GREATEST>;

// `RingSize::new` stands in lines and promises a range in general; that the size of a ring is 514 to 65,536 is promised here,
// since the name of a type has no contract of its own.
pub fn ring_size(octets: usize) -> Result<RingSize, Refusal>
    ensures { result ≡ octets_in octets }
{
    RingSize::new(octets)
}
