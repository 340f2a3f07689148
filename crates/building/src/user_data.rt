// User data of either type.
// (d): the definitions take type, number, FQC and RFCI one by one: these decide, and the round trips speak of each.
ghost use Rattle.std.specs.Prelude.{◌≡◌, ◌≤◌};
ghost use Rattle.frames.specs.Joined.{fitting};
ghost use Rattle.building.specs.UserData.{user_frame, user_data};

use crate::layout::header;
use crate::padding::pad;
use checksum::payload_checksum;
use frames::data_type::DataType;
use frames::extent::octets_for;
use frames::frame::DataHeader;
use frames::octets::{LONGEST, Octets};
use frames::refusal::Refusal;

// Both are written where they are called: a frame that a call gives back is copied once more.
#[inline(always)]
fn lay(fields: DataHeader, payload: &[u8]) -> Result<Octets, Refusal>
    requires { (fields.number ≤ 15) × (fields.fqc ≤ 3) × (fields.rfci ≤ 63) }
    ensures { result ≡ fitting (user_frame fields.data_type fields.number fields.fqc fields.rfci payload.now) }
{
    let first = fields.data_type.number() * 16 + fields.number;
    let second = (fields.fqc << 6) + fields.rfci;
    match fields.data_type {
        DataType::Checked => {
            Octets::of_parts(&header(first, second, payload_checksum(payload)), payload)
        }
        DataType::Plain => Octets::of_parts(&header(first, second, 0)[..3], payload),
    }
}

// Of the payload `bits` bits are sent, from the highest bit of the first octet on; what the last octet has after them is not.
// Refused in this order: a payload not in the least number of octets, a field out of its range, a frame too long.
#[inline(always)]
pub fn build_user_data(header: DataHeader, bits: usize, payload: &[u8]) -> Result<Octets, Refusal>
    ensures { result ≡ user_data header.data_type header.number header.fqc header.rfci bits payload.now }
{
    if payload.len() != octets_for(bits) {
        return Err(Refusal::OctetCount);
    }
    if header.number > 15 || header.fqc > 3 || header.rfci > 63 {
        return Err(Refusal::ValueRange);
    }
    // before any octet is looked at, however many there are
    if payload.len() > LONGEST {
        return Err(Refusal::TooLong);
    }
    // whole octets have no padding to clear: they are laid as they come
    if bits % 8 == 0 {
        return lay(header, payload);
    }
    lay(header, &pad(bits, payload)[..payload.len()])
}
