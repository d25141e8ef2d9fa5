// Why a command, or coming up, is refused, and the number that says so.
ghost use Rattle.std.specs.Prelude.{◌≡◌, Some};
ghost use Rattle.reports.specs.Registers.{refusal_number, refusal_text};

use std::error::Error;
use std::fmt;

// Why the engine refuses. The world is told the number beside the name, so each name keeps its own.
#[derive(Clone, Copy, Debug, PartialEq, Eq)]
pub enum Refusal {
    // The bytes are no command.
    NoCommand = 1,
    // The engine does not know this command yet.
    Unknown = 2,
    // No document has this name.
    NoSuchName = 3,
    // Neither head page has a head.
    NoHead = 9,
}

impl From<Refusal> for u64 {
    ghost from_gives = { λ refusal n. n ≡ refusal_number refusal };

    // The number that is told.
    fn from(refusal: Refusal) -> u64 {
        refusal as u64
    }
}

impl fmt::Display for Refusal {
    ghost output = { λ refusal. Some (refusal_text refusal) };

    fn fmt<W: fmt::Write>(&self, f: &mut fmt::Formatter<W>) -> fmt::Result {
        f.write_str(match self {
            Refusal::NoCommand => "the bytes are no command",
            Refusal::Unknown => "the engine does not know this command yet",
            Refusal::NoSuchName => "no document has this name",
            Refusal::NoHead => "neither head page has a head",
        })
    }
}

impl Error for Refusal {}
