// How many ticks an answer is waited for, and how often a question is repeated.
// The fields are public: a literal is checked where it stands, and whoever holds limits knows their ranges, as the law of whole runs has to.
// A `frames::ranged::Ranged` in each would hide its range from that law, and holds an octet, where ticks need two.
ghost use Rattle.std.specs.Prelude.{◌≤◌};

#[derive(Clone, Copy)]
pub struct Limits {
    pub ticks: u16,
    pub repeats: u8,
    ghost some: { 1 ≤ ticks },
    ghost most: { ticks ≤ 1000 },
    ghost few: { repeats ≤ 15 },
}
