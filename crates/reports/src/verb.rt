// What commands there are, by the byte that each begins with.
ghost use Rattle.std.specs.Prelude.{◌≡◌, Some};
ghost use Rattle.reports.specs.Verbs.{verb_number, VerbOf, unknown_verb_text};

use std::error::Error;
use std::fmt;

// What a command does: its number is the byte that the command begins with.
#[derive(Clone, Copy, Debug, PartialEq, Eq)]
pub enum Verb {
    Put = 1,
    Remove = 2,
    Note = 3,
    Ask = 4,
    Count = 5,
    Fetch = 6,
    Words = 7,
    Sweep = 8,
}

// A byte that stands for no verb; apart from `UnknownKind`, since it prints that.
#[derive(Clone, Copy, Debug, PartialEq, Eq)]
pub struct UnknownVerb(pub u8);

impl From<Verb> for u8 {
    ghost from_gives = { λ verb byte. byte ≡ verb_number verb };

    fn from(verb: Verb) -> u8 {
        verb as u8
    }
}

impl TryFrom<u8> for Verb {
    type Error = UnknownVerb;

    ghost try_from_gives = { VerbOf };

    fn try_from(byte: u8) -> Result<Verb, UnknownVerb> {
        match byte {
            1 => Ok(Verb::Put),
            2 => Ok(Verb::Remove),
            3 => Ok(Verb::Note),
            4 => Ok(Verb::Ask),
            5 => Ok(Verb::Count),
            6 => Ok(Verb::Fetch),
            7 => Ok(Verb::Words),
            8 => Ok(Verb::Sweep),
            _ => Err(UnknownVerb(byte)),
        }
    }
}

impl fmt::Display for UnknownVerb {
    ghost output = { λ error. Some (unknown_verb_text error) };

    fn fmt<W: fmt::Write>(&self, f: &mut fmt::Formatter<W>) -> fmt::Result {
        write!(f, "no command begins with the byte {}", self.0)
    }
}

impl Error for UnknownVerb {}
