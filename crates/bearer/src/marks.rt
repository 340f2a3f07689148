// The marks of a rate question, against the set in force.
ghost use Rattle.std.specs.Prelude.{◌≡◌};
ghost use Rattle.bearer.specs.Allowing.{allows_this, allows_one};

use frames::mask::MOST_MARKS;
use set_in_force::in_force::InForce;

// Whether the marks allow this RFCI.
fn allows(bars: &[bool; MOST_MARKS], rfci: u8) -> bool
    ensures { result ≡ allows_this bars.now rfci }
{
    bars.get(rfci as usize) == Some(&false)
}

// Whether the marks allow at least one combination of the set.
pub fn allow_one(set: &InForce, bars: &[bool; MOST_MARKS]) -> bool
    ensures { result ≡ allows_one bars.now set.now.combinations }
{
    set.rows().iter().any(|row| allows(bars, row.rfci()))
}
