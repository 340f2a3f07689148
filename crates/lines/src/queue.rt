// Frames in a store are a line.
ghost use Rattle.std.specs.Prelude.{◌≡◌, [], length};
ghost use Rattle.lines.specs.Meaning.{sends, accepted, roomy, Passed, Took, Framed, EachFramed};
ghost use Rattle.std.proofs.ByRecursion.{All-from_get_or};
ghost use Rattle.std.proofs.Common.{ap, ◌∙◌};

use crate::line::Line;
use crate::store::Store;
use frames::refusal::Refusal;
use std::marker::Model;

#[derive(Drop)]
pub struct Queue<S: Store> {
    store: S,
    ghost framed: { EachFramed (S.frames store) },
}

impl<S: Store> Model for Queue<S> {
    ghost use Rattle.lines.specs.Stores.{Queued};

    ghost Value = { Queued S };

    ghost view = { λ q. record { store = q.store; frames = S.frames q.store; framed = q.framed } };
}

impl<S: Store> Queue<S> {
    // Nothing waits at first.
    pub fn new(size: S::Size) -> Queue<S>
        ensures waiting { result.frames ≡ [] }
        ensures frames { S.frames result.store ≡ [] }
        ensures size { S.size result.store ≡ S.places size }
    {
        let store = S::empty(size);
        Queue { store }
    }
}

// Beside what every line promises: no call changes the size of the store.
impl<S: Store> Line for Queue<S> {
    ghost waiting = { λ q. q.frames };

    ghost takes = { λ q. S.room (S.size q.store) q.frames };

    ghost empty = { λ q none n. ap (λ fs. S.room (S.size q.store) fs n) none ∙ S.spacious q.store n };

    ghost shorter = { λ q. S.shorter (S.size q.store) q.frames };

    ghost sized = { λ q. S.sized (S.size q.store) q.frames };

    ghost framed = { λ q. All-from_get_or Framed q.frames [] q.framed };

    fn put(&mut self, frame: &[u8]) -> Result<(), Refusal>
        ensures answer { result ≡ accepted (S.room (S.size self.old.store) self.old.frames (length frame.now)) }
        ensures line { Passed (λ q. q.frames) self.old self.new (sends (S.room (S.size self.old.store) self.old.frames (length frame.now)) frame.now) }
        ensures size { S.size self.new.store ≡ S.size self.old.store }
    {
        self.store.push(frame)
    }

    fn takes_length(&self, length: usize) -> bool {
        self.store.has_room(length)
    }

    fn take(&mut self, out: &mut [u8]) -> Result<Option<usize>, Refusal>
        ensures took { Took (λ q. q.frames) (λ q. S.room (S.size q.store) q.frames) (roomy out.old) self.old.frames self.old self.new out.old out.new result }
        ensures size { S.size self.new.store ≡ S.size self.old.store }
    {
        self.store.pop(out)
    }
}
