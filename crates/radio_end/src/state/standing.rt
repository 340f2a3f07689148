// The set in force, for the owner of the end.
ghost use Rattle.std.specs.Prelude.{◌≡◌};
ghost use Rattle.bearer.specs.Bearing.{standing};

use super::RadioEnd;
use lines::line::Line;
use set_in_force::in_force::InForce;

impl<L: Line> RadioEnd<L> {
    // With the marks of its combinations. Asking changes nothing.
    pub fn in_force(&self) -> Option<InForce>
        ensures { result ≡ standing self.now.state.bearing.force }
    {
        self.bearer.in_force().copied()
    }
}
