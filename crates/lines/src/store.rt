// What a queue keeps its frames in: a store of some size, filled behind the last frame and emptied from the oldest on.
ghost use Rattle.std.specs.Prelude.{◌≡◌, ℕ, ◌≤◌, Bool, true, List, [], ◌∷◌, length};
ghost use Rattle.lines.specs.Meaning.{fits, sends, accepted, roomy, Passed};
ghost use Rattle.lines.specs.Stores.{Popped};

use frames::refusal::Refusal;

pub trait Store {
    type Size;

    // How many places that size has.
    ghost places: { Self.Size → ℕ };

    // How many places the store has.
    ghost size: { Self → ℕ };

    // The frames in it, oldest first.
    ghost frames: { Self → List (List ℕ) };

    // Whether that many places have room for a length behind these frames.
    ghost room: { ℕ → List (List ℕ) → ℕ → Bool };

    fn empty(wanted: Self::Size) -> Self
        ensures frames { frames result ≡ [] }
        ensures size { size result ≡ places wanted };

    fn has_room(&self, length: usize) -> bool
        ensures { result ≡ room (size self.now) (frames self.now) length };

    // A frame that has room goes behind the others; another is refused, and nothing changes.
    fn push(&mut self, frame: &[u8]) -> Result<(), Refusal>
        ensures answer { result ≡ accepted (room (size self.old) (frames self.old) (length frame.now)) }
        ensures frames { Passed frames self.old self.new (sends (room (size self.old) (frames self.old) (length frame.now)) frame.now) }
        ensures size { size self.new ≡ size self.old };

    // Moves the oldest frame to the start of `out`, and tells its length; none where there is no frame. A buffer that is
    // too small for the longest frame is refused, and nothing changes.
    fn pop(&mut self, out: &mut [u8]) -> Result<Option<usize>, Refusal>
        ensures frames { Popped frames (roomy out.old) (frames self.old) self.old self.new out.old out.new result }
        ensures size { size self.new ≡ size self.old };

    ghost spacious: { (s : Self) (n : ℕ) → room (size s) [] n ≡ fits n };

    ghost shorter: { (k : ℕ) (fs : List (List ℕ)) (m n : ℕ) → room k fs n ≡ true → 1 ≤ m → m ≤ n → room k fs m ≡ true };

    ghost sized: { (k : ℕ) (fs : List (List ℕ)) (n : ℕ) → room k fs n ≡ true → fits n ≡ true };

    // What had room still has it when a frame has gone.
    ghost freed: { (k : ℕ) (f : List ℕ) (fs : List (List ℕ)) (n : ℕ) → room k (f ∷ fs) n ≡ true → room k fs n ≡ true };
}
