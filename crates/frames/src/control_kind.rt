// What a control frame is: a question, or one of the two answers to it.
ghost use Rattle.std.specs.Prelude.{◌≡◌};
ghost use Rattle.frames.specs.ControlKinds.{kind_in};

use crate::refusal::Refusal;

#[derive(Clone, Copy, PartialEq, Eq, Debug)]
pub enum ControlKind {
    Question = 0,
    Ack = 1,
    Nack = 2,
}

// Two bits: 3 is reserved.
impl TryFrom<u8> for ControlKind {
    type Error = Refusal;

    fn try_from(bits: u8) -> Result<ControlKind, Refusal>
        ensures { result ≡ kind_in bits }
    {
        match bits {
            0 => Ok(ControlKind::Question),
            1 => Ok(ControlKind::Ack),
            2 => Ok(ControlKind::Nack),
            _ => Err(Refusal::ReservedValue),
        }
    }
}
