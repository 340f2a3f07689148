// The values that a draft is opened with, checked: N subflows, whether IPTIs are given (TI), and the data PDU type.
ghost use Rattle.std.specs.Prelude.{◌≡◌, ◌≤◌};
ghost use Rattle.sets.specs.Openings.{opening_in, smallest};

use frames::data_type::DataType;
use frames::ranged::Ranged;
use frames::refusal::Refusal;
use std::marker::Model;

#[derive(Clone, Copy, PartialEq, Eq, Debug)]
pub struct Opening {
    // at most `MOST_SUBFLOWS`: a const argument is no computed one, and the constant is of another width
    subflows: Ranged<1, 7>,
    timed: bool,
    data_type: DataType,
}

impl Model for Opening {
    ghost use Rattle.sets.specs.Openings.{Values};

    ghost Value = { Values };

    ghost view = { λ o. record { subflows = o.subflows; timed = o.timed; data_type = o.data_type } };

    ghost inverse = { λ v. record { subflows = v.subflows; timed = v.timed; data_type = v.data_type } };
}

impl Opening {
    // N is 1 to 7, the data PDU type 0 or 1.
    pub fn new(subflows: u8, timed: bool, data_type: u8) -> Result<Opening, Refusal>
        ensures { result ≡ opening_in subflows timed data_type }
    {
        let subflows = Ranged::within(subflows).ok_or(Refusal::Dimensions)?;
        let data_type = DataType::try_from(data_type).or(Err(Refusal::Dimensions))?;
        Ok(Opening {
            subflows,
            timed,
            data_type,
        })
    }

    // The opening values of the smallest set: one subflow, no IPTIs, and data PDU type 0.
    pub fn smallest() -> Opening
        ensures { result ≡ smallest }
    {
        Opening {
            subflows: Ranged::within(1).unwrap(),
            timed: false,
            data_type: DataType::Checked,
        }
    }

    // How many subflows a combination has.
    pub fn subflows(self) -> u8
        ensures is { result ≡ self.subflows }
        ensures some { 1 ≤ result }
        ensures few { result ≤ 7 }
    {
        self.subflows.value()
    }

    // Whether combinations have an IPTI.
    pub fn is_timed(self) -> bool
        ensures { result ≡ self.timed }
    {
        self.timed
    }

    // The type of the frames that carry user data.
    pub fn data_type(self) -> DataType
        ensures { result ≡ self.data_type }
    {
        self.data_type
    }
}
