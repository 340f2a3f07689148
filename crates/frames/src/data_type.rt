// The two types of user data frames.
ghost use Rattle.std.specs.Prelude.{◌≡◌};
ghost use Rattle.frames.specs.DataTypes.{data_number, data_type_in};

use crate::refusal::Refusal;

#[derive(Clone, Copy, PartialEq, Eq, Debug)]
pub enum DataType {
    // with a payload checksum
    Checked = 0,
    // without one
    Plain = 1,
}

impl DataType {
    // The PDU type of the frames.
    pub fn number(self) -> u8
        ensures { result ≡ data_number self }
    {
        self as u8
    }
}

// No other PDU type carries user data.
impl TryFrom<u8> for DataType {
    type Error = Refusal;

    fn try_from(number: u8) -> Result<DataType, Refusal>
        ensures { result ≡ data_type_in number }
    {
        match number {
            0 => Ok(DataType::Checked),
            1 => Ok(DataType::Plain),
            _ => Err(Refusal::UnexpectedPduType),
        }
    }
}
