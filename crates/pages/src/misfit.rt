// Why memory that was lent is refused.
ghost use Rattle.std.specs.Prelude.{Some, codes};

use std::error::Error;
use std::fmt;

// What was lent does not fit: it is of another length, or a cell holds no byte.
#[derive(Clone, Copy, Debug, PartialEq, Eq)]
pub struct Misfit;

impl fmt::Display for Misfit {
    ghost output = { λ _. Some (codes "what was lent does not fit") };

    fn fmt<W: fmt::Write>(&self, f: &mut fmt::Formatter<W>) -> fmt::Result {
        write!(f, "what was lent does not fit")
    }
}

impl Error for Misfit {}
