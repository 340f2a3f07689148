// Limits are checked before they become a value.
ghost use Rattle.std.specs.Prelude.{◌≡◌};
ghost use Rattle.exchange.specs.Limiting.{as_bound, bound_in};

use crate::limits::Limits;
use frames::refusal::Refusal;

impl Limits {
    // 1 to 1,000 ticks, and 0 to 15 repeats.
    pub fn new(ticks: u16, repeats: u8) -> Result<Limits, Refusal>
        ensures { as_bound result ≡ bound_in ticks repeats }
    {
        match (ticks, repeats) {
            (1..=1000, 0..=15) => Ok(Limits { ticks, repeats }),
            _ => Err(Refusal::SettingRange),
        }
    }
}
