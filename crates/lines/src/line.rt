// What a line is: its meaning, the laws of that meaning, and its three calls.
ghost use Rattle.std.specs.Prelude.{◌≡◌, ℕ, ◌≤◌, Bool, true, List, [], length};
ghost use Rattle.std.specs.List.{AllByRecursion};
ghost use Rattle.lines.specs.Meaning.{fits, Framed, sends, accepted, roomy, Passed, Took};

use frames::refusal::Refusal;

pub trait Line {
    // The frames that wait, oldest first.
    ghost waiting: { Self → List (List ℕ) };

    // Whether a frame of this length is taken now.
    ghost takes: { Self → ℕ → Bool };

    // A frame of a length that is taken now waits behind the others; another is refused, and nothing changes.
    fn put(&mut self, frame: &[u8]) -> Result<(), Refusal>
        ensures answer { result ≡ accepted (takes self.old (length frame.now)) }
        ensures line { Passed waiting self.old self.new (sends (takes self.old (length frame.now)) frame.now) };

    // Whether a frame of this length is taken now. Asking changes nothing.
    fn takes_length(&self, length: usize) -> bool
        ensures { result ≡ takes self.now length };

    // Moves the oldest frame to the start of `out`, and tells its length; none where no frame waits.
    fn take(&mut self, out: &mut [u8]) -> Result<Option<usize>, Refusal>
        ensures { Took waiting takes (roomy out.old) (waiting self.old) self.old self.new out.old out.new result };

    ghost empty: { (l : Self) → waiting l ≡ [] → (n : ℕ) → takes l n ≡ fits n };

    ghost shorter: { (l : Self) (m n : ℕ) → takes l n ≡ true → 1 ≤ m → m ≤ n → takes l m ≡ true };

    ghost sized: { (l : Self) (n : ℕ) → takes l n ≡ true → fits n ≡ true };

    ghost framed: { (l : Self) → AllByRecursion Framed (waiting l) };
}
