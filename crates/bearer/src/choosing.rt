// Settings are checked before they become a value.
ghost use Rattle.std.specs.Prelude.{◌≡◌};
ghost use Rattle.bearer.specs.Chosen.{as_chosen, chosen_in};

use crate::settings::{Numbering, Settings, Timing};
use exchange::limits::Limits;
use frames::refusal::Refusal;

impl Settings {
    // Of each procedure 1 to 1,000 ticks and 0 to 15 repeats. A mark is any octet.
    pub fn new(
        initialisation: Timing,
        rate: Timing,
        alignment: Timing,
        numbering: Numbering,
        keep_damaged: bool,
        mark: u8,
    ) -> Result<Settings, Refusal>
        ensures { as_chosen result ≡ chosen_in initialisation rate alignment numbering keep_damaged mark }
    {
        let limits = |timing: Timing| Limits::new(timing.ticks, timing.repeats);
        Ok(Settings {
            initialisation: limits(initialisation)?,
            rate: limits(rate)?,
            alignment: limits(alignment)?,
            numbering,
            keep_damaged,
            mark,
        })
    }
}
