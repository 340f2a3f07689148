// The set in force and the numbers of its user data.
ghost use Rattle.std.specs.Prelude.{◌≡◌, ◌≤◌};
ghost use Rattle.bearer.specs.Bearing.{in_force};
ghost use Rattle.bearer.specs.Traffics.{numbered, frame_for};

mod receiving;

use crate::settings::Numbering;
use building::user_data::build_user_data;
use frames::frame::DataHeader;
use frames::octets::Octets;
use frames::ranged::Ranged;
use frames::refusal::Refusal;
use set_in_force::in_force::InForce;
use sets::closed::Set;
use std::marker::Model;

// The number of a user data frame, four bits wide.
type FrameNumber = Ranged<0, 15>;

// The set in force, the number of the next frame to send, and the number that is expected next.
#[derive(Clone, Copy)]
pub struct Traffic {
    set: InForce,
    sending: FrameNumber,
    expected: FrameNumber,
}

impl Model for Traffic {
    ghost use Rattle.bearer.specs.Bearing.{Force};

    ghost Value = { Force };

    ghost view = { λ t. record { set = t.set; sending = t.sending; expected = t.expected } };

    ghost inverse = { λ x. record { set = x.set; sending = x.sending; expected = x.expected } };
}

impl Traffic {
    // A set comes into force: both numbers begin at 0.
    pub fn of_set(set: Set) -> Traffic
        ensures { result ≡ in_force set }
    {
        Traffic {
            set: InForce::from_set(set),
            sending: FrameNumber::first(),
            expected: FrameNumber::first(),
        }
    }

    pub fn set(&self) -> &InForce
        ensures { result.now ≡ self.now.set }
    {
        &self.set
    }

    // The number of the next frame to send.
    pub fn sending(&self) -> u8
        ensures is { result ≡ self.now.sending }
        ensures low { self.now.sending ≤ 15 }
    {
        self.sending.value()
    }

    // The number that is expected next.
    pub fn expected(&self) -> u8
        ensures is { result ≡ self.now.expected }
        ensures low { self.now.expected ≤ 15 }
    {
        self.expected.value()
    }

    // The next frame, with user data of a combination.
    pub(crate) fn frame(&self, rfci: u8, fqc: u8, payload: &[u8]) -> Result<Octets, Refusal>
        ensures { result ≡ frame_for rfci fqc payload.now self.now }
    {
        let found = self.set.look_up(rfci).ok_or(Refusal::RfciBarred)?;
        if !found.allowed {
            return Err(Refusal::RfciBarred);
        }
        let header = DataHeader {
            data_type: self.set.opening().data_type(),
            number: self.sending.value(),
            fqc,
            rfci,
        };
        build_user_data(header, found.bits as usize, payload)
    }

    // A tick or a frame has passed: where numbers go on by it, the next frame has the next one, modulo 16.
    pub(crate) fn number_on(&mut self, numbering: Numbering, by: Numbering)
        ensures { self.new ≡ numbered numbering by self.old }
    {
        if numbering == by {
            self.sending = self.sending.following();
        }
    }
}
