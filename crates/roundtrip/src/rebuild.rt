// A received frame, read and built again.
ghost use Rattle.std.specs.Prelude.{◌≡◌, IfOk};
ghost use Rattle.roundtrip.specs.Messages.{rebuilt};
ghost use Rattle.roundtrip.specs.Trips.{Exact, BuiltIsRead, ReadIsBuilt, DataIsRead, DataIsBuilt};

use crate::again::build_again;
use frames::octets::Octets;
use frames::refusal::Refusal;

// The frame as this library sends it: spare and padding bits 0, and no spare extension. Where the received one is so, it is the same.
pub fn rebuild(octets: &[u8]) -> Result<Octets, Refusal>
    ensures again { result ≡ rebuilt octets.now }
    ensures same { Exact octets.now → IfOk result (λ f. f ≡ octets.now) }
    ensures reads { BuiltIsRead }
    ensures builds { ReadIsBuilt }
    ensures data_reads { DataIsRead }
    ensures data_builds { DataIsBuilt }
{
    build_again(octets)
}
