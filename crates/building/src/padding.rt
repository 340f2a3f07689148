// Padding: the bits after the last one of the payload are sent as 0.
ghost use Rattle.std.specs.Prelude.{◌≡◌, ◌/◌, ◌%◌, ◌<◌, ◌≤◌, length, take};
ghost use Rattle.frames.specs.Extent.{octets_for};
ghost use Rattle.building.specs.UserData.{high_bits, padded};

use frames::octets::LONGEST;

fn high_bits(count: u32, octet: u8) -> u8
    requires { (0 < count) × (count < 8) }
    ensures { result ≡ high_bits count octet }
{
    let unit = 1 << (8 - count);
    octet / unit * unit
}

// The payload with its padding cleared, in the first octets of the result.
#[inline(always)]
pub(crate) fn pad(bits: usize, payload: &[u8]) -> [u8; LONGEST]
    requires octets { length payload.now ≡ octets_for bits }
    requires over { 0 < bits % 8 }
    requires room { length payload.now ≤ LONGEST }
    ensures { take (length payload.now) result ≡ padded bits payload.now }
{
    let whole = bits / 8;
    let mut cells = [0; LONGEST];
    cells[..whole].copy_from_slice(&payload[..whole]);
    cells[whole] = high_bits((bits % 8) as u32, payload[whole]);
    cells
}
