// The first four octets of a frame: its fields, and the checksums over them and over its payload, whose two high bits lie in the octet of the other.
ghost use Rattle.std.specs.Prelude.{◌≡◌, ◌<◌};
ghost use Rattle.building.specs.Building.{header};

use checksum::header_checksum;

pub(crate) fn header(first: u8, second: u8, sum: u16) -> [u8; 4]
    requires { sum < 1024 }
    ensures { result ≡ header first second sum }
{
    let third = (header_checksum(first, second) << 2) + (sum >> 8) as u8;
    [first, second, third, (sum % 256) as u8]
}
