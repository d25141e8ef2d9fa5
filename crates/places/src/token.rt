// A token: one number that says where a word of a document stands, and its place.
ghost use Rattle.std.specs.Prelude.{◌≡◌, ℕ, ◌+◌, ◌*◌, ◌<◌};
ghost use Rattle.pages.specs.Lists.{each};
ghost use Rattle.words.specs.Words.{small};
ghost use Rattle.rows.specs.Orders.{RowsCompared};
ghost use Rattle.places.specs.Tokens.{key_at, key_in, row_in, token_place};

use documents::Texts;
use rows::{Key, Row};
use std::cmp::Ordering;
use words::{compare_words, word_from};

// Tokens lie in lent memory as numbers: 65536 times the offset of the word's first byte in title or body, and its place.
#[derive(Clone, Copy, Debug, PartialEq, Eq)]
pub struct Token(u64);

impl From<u64> for Token {
    ghost from_gives = { λ cell t. t.0 ≡ cell };

    fn from(cell: u64) -> Token {
        Token(cell)
    }
}

impl From<Token> for u64 {
    ghost from_gives = { λ t cell. cell ≡ t.0 };

    fn from(token: Token) -> u64 {
        token.0
    }
}

// The first word of a text from an offset on; no bytes where there is none.
fn first_word(text: &[u8], at: usize) -> &[u8]
    ensures { each small result.now ≡ key_at text.now at }
{
    word_from(text, at).map_or(&[], |word| word.bytes(text))
}

impl Token {
    // The token of a word that begins at an offset.
    pub(crate) fn new(offset: usize, place: u16) -> Token
        requires { offset < 65536 }
        ensures { result.0 ≡ offset * 65536 + place }
    {
        Token(offset as u64 * 65536 + u64::from(place))
    }

    // The place of the token's word: below 32768 in the title, from there on in the body.
    pub fn place(self) -> u16
        ensures { result ≡ token_place self.0 }
    {
        (self.0 % 65536) as u16
    }

    // The bytes of the token's word where they stand in title or body; with capitals made small they are the key.
    pub fn word<'a>(self, texts: Texts<'a>) -> &'a [u8]
        ensures { each small result.now ≡ key_in texts.entry self.0 }
    {
        let offset = (self.0 / 65536) as usize;
        if self.place() < 32768 {
            first_word(texts.title, offset)
        } else {
            first_word(texts.body, offset)
        }
    }

    // Compares two tokens as rows of one document.
    pub fn compare(self, other: Token, texts: Texts<'_>) -> Ordering
        ensures { (doc : ℕ) → RowsCompared result (row_in doc texts.entry self.0) (row_in doc texts.entry other.0) }
    {
        compare_words(self.word(texts), other.word(texts)).then(self.place().cmp(&other.place()))
    }

    // The row of the token: the word with capitals made small, the number of its document, and its place.
    pub fn row(self, texts: Texts<'_>, doc: u32) -> Row
        ensures { result ≡ row_in doc texts.entry self.0 }
    {
        let word = self.word(texts);
        Row {
            key: Key::of_word(word),
            doc,
            place: self.place(),
        }
    }
}
