// What a call can cause.
use crate::ending::{Ending, Kind};
use frames::octets::Octets;
use set_in_force::place::Places;

// User data that was received: its combination, frame quality, the gap before it, the octet where its payload begins, and its subflows.
#[derive(Clone, Copy, PartialEq, Eq, Debug)]
pub struct Delivery {
    pub rfci: u8,
    pub fqc: u8,
    pub gap: u8,
    pub place: usize,
    pub subflows: Places,
}

#[derive(Clone, Copy, PartialEq, Eq, Debug)]
pub enum Happening {
    Started(Kind),
    Ended(Kind, Ending),
    Delivered(Delivery),
    HandedOver(Octets),
    Refused(Octets),
}
