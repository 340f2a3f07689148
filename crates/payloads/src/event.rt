// What an error event tells: how far away, and why.
use frames::cause::Cause;
use frames::distance::Distance;

#[derive(Clone, Copy, PartialEq, Eq, Debug)]
pub struct ErrorEvent {
    pub distance: Distance,
    pub cause: Cause,
}
