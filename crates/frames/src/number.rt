// The number of a control frame, two bits wide: questions of a procedure are counted modulo 4.
use crate::ranged::Ranged;

pub type Number = Ranged<0, 3>;
