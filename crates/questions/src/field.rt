// Where a question looks.
ghost use Rattle.std.specs.Prelude.{◌≡◌, Some};
ghost use Rattle.questions.specs.Fields.{field_number, FieldOf, unknown_field_text};

use std::error::Error;
use std::fmt;

// Where one looks: its number is the byte that stands for it in a question.
#[derive(Clone, Copy, Debug, PartialEq, Eq)]
pub enum Field {
    Either = 0,
    Title = 1,
    Body = 2,
}

// A byte that stands for no field. Kinds of questions and verbs of commands have a type of this form of their own, since each prints what it is no number of.
#[derive(Clone, Copy, Debug, PartialEq, Eq)]
pub struct UnknownField(pub u8);

impl From<Field> for u8 {
    ghost from_gives = { λ field byte. byte ≡ field_number field };

    fn from(field: Field) -> u8 {
        field as u8
    }
}

impl TryFrom<u8> for Field {
    type Error = UnknownField;

    ghost try_from_gives = { FieldOf };

    fn try_from(byte: u8) -> Result<Field, UnknownField> {
        match byte {
            0 => Ok(Field::Either),
            1 => Ok(Field::Title),
            2 => Ok(Field::Body),
            _ => Err(UnknownField(byte)),
        }
    }
}

impl fmt::Display for UnknownField {
    ghost output = { λ error. Some (unknown_field_text error) };

    fn fmt<W: fmt::Write>(&self, f: &mut fmt::Formatter<W>) -> fmt::Result {
        write!(f, "no field has the number {}", self.0)
    }
}

impl Error for UnknownField {}

#[cfg(test)]
mod tests {
    use super::*;

    #[test]
    fn fields_by_their_bytes(rt: HostRuntime) {
        assert_eq!(rt; Field::try_from(0), Ok(Field::Either));
        assert_eq!(rt; Field::try_from(1), Ok(Field::Title));
        assert_eq!(rt; Field::try_from(2), Ok(Field::Body));
        assert_eq!(rt; Field::try_from(3), Err(UnknownField(3)));
        assert_eq!(rt; u8::from(Field::Body), 2);
    }
}
