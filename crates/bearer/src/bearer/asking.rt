// The combination of the set in force with exactly some sizes.
ghost use Rattle.std.specs.Prelude.{◌≡◌, []};
ghost use Rattle.bearer.specs.Traffics.{Sought};

use super::Bearer;
use frames::refusal::Refusal;
use reports::report::Report;

impl Bearer {
    // Any one of them is named, if there are several.
    pub fn search(&self, sizes: &[u16], report: &mut Report) -> Result<u8, Refusal>
        ensures found { Sought sizes.now self.now.force result }
        ensures said { report.new ≡ [] }
    {
        report.clear();
        let traffic = self.traffic.as_ref().ok_or(Refusal::WrongPhase)?;
        traffic.set().search(sizes)
    }
}
