// Bits rounded up to octets.
ghost use Rattle.std.specs.Prelude.{◌≡◌, ◌+◌, ◌*◌, ◌<◌, ◌≤◌};
ghost use Rattle.frames.specs.Extent.{octets_for};

// The octets that hold this many bits: no fewer do.
pub fn octets_for(bits: usize) -> usize
    ensures is { result ≡ octets_for bits }
    ensures holds { bits ≤ 8 * result }
    ensures least { 8 * result < bits + 8 }
{
    bits.div_ceil(8)
}

// The most octets of spare extension that a receiver takes after the fields of a control frame's payload.
pub const MOST_SPARE: usize = 32;
