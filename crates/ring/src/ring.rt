// A ring of octets is a line: frames stand in it one behind the other, round its end.
use crate::store::RingStore;
use lines::queue::Queue;

pub type Ring = Queue<RingStore>;
