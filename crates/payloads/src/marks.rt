// The marks of a rate question.
ghost use Rattle.std.specs.Prelude.{◌≡◌, ◌≤◌, length};
ghost use Rattle.frames.specs.Extent.{octets_for};
ghost use Rattle.payloads.specs.Payloads.{marks_at};

use frames::mask::{MOST_MARKS, RateMask};

// The first marks, eight to an octet, the first one highest; 1 bars.
pub(crate) fn read_marks(count: usize, octets: &[u8]) -> RateMask
    requires few { count ≤ MOST_MARKS }
    requires there { octets_for count ≤ length octets.now }
    ensures { result ≡ marks_at count octets.now }
{
    // A library has no heap: an array for the most marks, filled up to the count alone. By `from_fn`, over all 63, one mark took three times as long.
    let mut bars = [false; MOST_MARKS];
    for k in 0..count {
        bars[k] = (octets[k / 8] >> (7 - k % 8)) % 2 == 1;
    }
    RateMask::new(count, bars).unwrap()
}
