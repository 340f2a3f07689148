// How many cells a line has: 1 to 32.
ghost use Rattle.std.specs.Prelude.{◌≡◌};
ghost use Rattle.cells.specs.Counts.{count_in};

use frames::refusal::Refusal;
use lines::size::Size;

// The most cells that a line can have.
pub const MOST: usize = 32;

pub type CellCount = Size<1, MOST>;

// `CellCount::new` stands in lines and promises a range in general; that a count of cells is 1 to 32 is promised here, since
// the name of a type has no contract of its own.
pub fn cell_count(count: usize) -> Result<CellCount, Refusal>
    ensures { result ≡ count_in count }
{
    CellCount::new(count)
}
