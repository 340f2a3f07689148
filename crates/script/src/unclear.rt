// Why a line is not understood.
ghost use Rattle.std.specs.Prelude.{Some};
ghost use Rattle.script.specs.Reasons.{reason_of};

use std::error::Error;
use std::fmt;

#[derive(Clone, Copy, PartialEq, Eq, Debug, Drop)]
pub enum Unclear {
    // a word that names nothing
    Name,
    // too few words, or too many
    Words,
    // a value that its place does not hold
    Value,
}

impl fmt::Display for Unclear {
    ghost output = { λ u. Some (reason_of u) };

    fn fmt<W: fmt::Write>(&self, f: &mut fmt::Formatter<W>) -> fmt::Result {
        match self {
            Unclear::Name => write!(f, "an unknown word"),
            Unclear::Words => write!(f, "too few words, or too many"),
            Unclear::Value => write!(f, "a value that does not fit its place"),
        }
    }
}

impl Error for Unclear {}
