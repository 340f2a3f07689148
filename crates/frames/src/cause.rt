// The cause that a Nack or an error event names, six bits wide.
use crate::ranged::Ranged;

pub type Cause = Ranged<0, 63>;

impl Cause {
    // user data was lost before a frame
    pub const FRAME_LOSS: Cause = Ranged { value: 3 };

    // a time alignment that the other end never does
    pub const ALIGNMENT_NOT_SUPPORTED: Cause = Ranged { value: 47 };

    // one that it does not do now
    pub const ALIGNMENT_NOT_POSSIBLE: Cause = Ranged { value: 48 };
}
