// What a received frame was.
use frames::cause::Cause;

#[derive(Clone, Copy, PartialEq, Eq, Debug)]
pub enum Received {
    // user data, which the report names
    Delivered,
    // an error event: its cause, and its distance plus one, a number since the farthest one has no name
    ErrorEvent { cause: Cause, distance: u8 },
    Ack,
    // with its cause
    Nack(Cause),
}
