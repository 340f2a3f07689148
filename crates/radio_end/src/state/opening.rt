// Opening a radio end.
ghost use Rattle.std.specs.Prelude.{◌≡◌};
ghost use Rattle.radio_end.specs.Radio.{opened};
ghost use Rattle.radio_end.specs.Law.{RunsHold};

use super::RadioEnd;
use bearer::bearer::Bearer;
use bearer::settings::Settings;
use exchange::numbered::Numbered;
use lines::line::Line;

impl<L: Line> RadioEnd<L> {
    // An end over any line, whatever waits on it. Opening is never refused.
    // Nothing runs, no set is in force, and every number begins at 0. Whatever is called from here on, the ledger of the calls is in order.
    #[tactic(auto, using(crate::proofs::Running::runs_hold))]
    pub fn open(settings: Settings, line: L) -> RadioEnd<L>
        ensures stands { result ≡ record { state = opened settings; line = line } }
        ensures runs { RunsHold L.waiting L.takes settings result }
    {
        RadioEnd {
            bearer: Bearer::new(settings),
            links: None,
            rate: Numbered::new(),
            alignment: Numbered::new(),
            line,
        }
    }
}
