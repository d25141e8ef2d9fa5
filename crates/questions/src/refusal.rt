// Why hits are not picked.
ghost use Rattle.std.specs.Prelude.{◌≡◌, Some};
ghost use Rattle.questions.specs.Best.{refusal_number, refusal_text};

use std::error::Error;
use std::fmt;

// Why hits are not picked, in the order in which it is looked at.
#[derive(Clone, Copy, Debug, PartialEq, Eq)]
pub enum Refusal {
    // They are cut short, or there are too many.
    CutShort = 1,
    // Their names do not rise.
    NotRising = 2,
    // The lent row is too short for the best of them.
    NoRoom = 3,
}

impl From<Refusal> for u64 {
    ghost from_gives = { λ why number. number ≡ refusal_number why };

    fn from(why: Refusal) -> u64 {
        why as u64
    }
}

impl fmt::Display for Refusal {
    ghost output = { λ why. Some (refusal_text why) };

    fn fmt<W: fmt::Write>(&self, f: &mut fmt::Formatter<W>) -> fmt::Result {
        f.write_str(match self {
            Refusal::CutShort => "the hits are cut short, or more than 65536",
            Refusal::NotRising => "the names of the hits do not rise",
            Refusal::NoRoom => "the row is too short for the best of the hits",
        })
    }
}

impl Error for Refusal {}
