// Which kinds of questions there are.
ghost use Rattle.std.specs.Prelude.{◌≡◌, Some};
ghost use Rattle.questions.specs.Kinds.{kind_number, KindOf, unknown_kind_text};

use std::error::Error;
use std::fmt;

// What kind of question follows: its number is the byte that stands before it.
#[derive(Clone, Copy, Debug, PartialEq, Eq)]
pub enum Kind {
    // In a field a word, a phrase, and a word that begins so.
    Word = 1,
    Phrase = 2,
    Begins = 3,
    // Two words near each other.
    Near = 4,
    // Two questions, joined by this.
    Both = 5,
    Either = 6,
    But = 7,
}

// A byte that stands for no kind; apart from `UnknownField`, since it prints that.
#[derive(Clone, Copy, Debug, PartialEq, Eq)]
pub struct UnknownKind(pub u8);

impl From<Kind> for u8 {
    ghost from_gives = { λ kind byte. byte ≡ kind_number kind };

    fn from(kind: Kind) -> u8 {
        kind as u8
    }
}

impl TryFrom<u8> for Kind {
    type Error = UnknownKind;

    ghost try_from_gives = { KindOf };

    fn try_from(byte: u8) -> Result<Kind, UnknownKind> {
        match byte {
            1 => Ok(Kind::Word),
            2 => Ok(Kind::Phrase),
            3 => Ok(Kind::Begins),
            4 => Ok(Kind::Near),
            5 => Ok(Kind::Both),
            6 => Ok(Kind::Either),
            7 => Ok(Kind::But),
            _ => Err(UnknownKind(byte)),
        }
    }
}

impl fmt::Display for UnknownKind {
    ghost output = { λ error. Some (unknown_kind_text error) };

    fn fmt<W: fmt::Write>(&self, f: &mut fmt::Formatter<W>) -> fmt::Result {
        write!(f, "no kind of question has the number {}", self.0)
    }
}

impl Error for UnknownKind {}

#[cfg(test)]
mod tests {
    use super::*;

    #[test]
    fn kinds_by_their_bytes(rt: HostRuntime) {
        assert_eq!(rt; Kind::try_from(1), Ok(Kind::Word));
        assert_eq!(rt; Kind::try_from(4), Ok(Kind::Near));
        assert_eq!(rt; Kind::try_from(7), Ok(Kind::But));
        assert_eq!(rt; Kind::try_from(0), Err(UnknownKind(0)));
        assert_eq!(rt; Kind::try_from(8), Err(UnknownKind(8)));
        assert_eq!(rt; u8::from(Kind::Word), 1);
        assert_eq!(rt; u8::from(Kind::Both), 5);
    }
}
