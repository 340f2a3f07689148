// User data received, against the set in force.
ghost use Rattle.std.specs.Prelude.{◌≡◌, length};
ghost use Rattle.bearer.specs.Traffics.{data_of, gap_of, expected_next, fitted, quality_of, judged, counted};

use super::{FrameNumber, Traffic};
use crate::settings::{Numbering, Settings};
use frames::extent::octets_for;
use frames::frame::UserData;
use frames::refusal::Refusal;
use payloads::check::check_user_data;
use reports::happening::Delivery;

// The frame quality of a bad frame.
const BAD: u8 = 1;

// The most octets of spare extension after user data.
const MOST_SPARE: usize = 4;

// A payload has the octets of its combination, and at most so many of spare extension after them.
fn check_length(length: usize, bits: u16) -> Result<(), Refusal>
    ensures { result ≡ fitted length bits }
{
    let octets = octets_for(bits as usize);
    if length < octets {
        return Err(Refusal::TooShort);
    }
    if length > octets + MOST_SPARE {
        return Err(Refusal::UnexpectedValue);
    }
    Ok(())
}

// Its frame quality: bad where the checksum is wrong and such data is kept.
fn quality(user: UserData<'_>, keep_damaged: bool) -> Result<u8, Refusal>
    ensures { result ≡ quality_of keep_damaged (data_of user.entry) }
{
    match check_user_data(user) {
        Err(_) if keep_damaged => Ok(BAD),
        checked => checked.map(|_| user.header.fqc),
    }
}

impl Traffic {
    // How far a number is off the expected one. Counting goes on from it.
    fn count(&mut self, numbering: Numbering, number: u8) -> u8
        ensures gap { result ≡ gap_of numbering self.old.expected number }
        ensures next { self.new ≡ expected_next numbering number self.old }
    {
        match numbering {
            Numbering::Counted => {
                let gap = (number % 16 + 16 - self.expected.value()) % 16;
                self.expected = FrameNumber::wrapped(number as u16 + 1);
                gap
            }
            Numbering::Timed => 0,
        }
    }

    // User data of a combination of the set, as it is told.
    pub(crate) fn receive(
        &mut self,
        user: UserData<'_>,
        settings: Settings,
    ) -> Result<Delivery, Refusal>
        ensures told { result ≡ judged settings (data_of user.entry) self.old }
        ensures next { self.new ≡ counted settings.numbering (data_of user.entry) result self.old }
    {
        if user.header.data_type != self.set.opening().data_type() {
            return Err(Refusal::UnexpectedPduType);
        }
        let found = self
            .set
            .look_up(user.header.rfci)
            .ok_or(Refusal::UnknownRfci)?;
        check_length(user.payload.len(), found.bits)?;
        let fqc = quality(user, settings.keep_damaged)?;
        Ok(Delivery {
            rfci: user.header.rfci,
            fqc,
            gap: self.count(settings.numbering, user.header.number),
            place: user.place,
            subflows: found.places,
        })
    }
}
