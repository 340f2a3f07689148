// How long a frame can be: 1 to 512 octets.
ghost use Rattle.std.specs.Prelude.{◌≡◌};
ghost use Rattle.lines.specs.Meaning.{fits};

use frames::octets::LONGEST;

// Whether a frame of so many octets can be.
pub fn fits(length: usize) -> bool
    ensures { result ≡ fits length }
{
    (1..=LONGEST).contains(&length)
}
