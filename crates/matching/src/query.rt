// Questions, and whether a document of some title and body matches one.
ghost use Rattle.std.specs.Prelude.{◌≡◌, map, vec_items};
ghost use Rattle.std.specs.Fn.{FnReturnsAt};
ghost use Rattle.pages.specs.Lists.{any, same, starts_with};
ghost use Rattle.words.specs.Words.{words};
ghost use Rattle.questions.specs.Query.{words_somewhere, near_in};
ghost use Rattle.matching.specs.View.{in_field, AskedSo, MatchesSo};

use crate::texts::{has_beginning, has_near, has_phrase, has_word};
use documents::Texts;
pub use questions::Field;

// Whether what is asked of a text is so where one looks: in the title, in the body, or in either of them.
fn in_field<F: Fn(&[u8]) -> bool>(field: Field, texts: &Texts<'_>, asked: F) -> bool
    requires { F.IsAlwaysCallable asked }
    ensures { AskedSo (FnReturnsAt F.Fn asked) field texts.now.title.now texts.now.body.now result }
{
    match field {
        Field::Either => asked(texts.title) || asked(texts.body),
        Field::Title => asked(texts.title),
        Field::Body => asked(texts.body),
    }
}

// Whether this word is where one looks. This one and the three after it stay apart where a program is built, so that a question within others needs no room on
// the stack for what they need.
#[inline(never)]
fn word_in(field: Field, texts: &Texts<'_>, word: &[u8]) -> bool
    ensures { result ≡ in_field field (any (same word.now) (words texts.now.title.now)) (any (same word.now) (words texts.now.body.now)) }
{
    in_field(field, texts, |text| has_word(text, word))
}

// Whether these words stand one after the other where one looks.
#[inline(never)]
fn phrase_in(field: Field, texts: &Texts<'_>, phrase: &[Vec<u8>]) -> bool
    ensures { result ≡ in_field field (words_somewhere (map vec_items phrase.now) (words texts.now.title.now)) (words_somewhere (map vec_items phrase.now) (words texts.now.body.now)) }
{
    in_field(field, texts, |text| has_phrase(text, phrase))
}

// Whether a word begins so where one looks.
#[inline(never)]
fn beginning_in(field: Field, texts: &Texts<'_>, start: &[u8]) -> bool
    ensures { result ≡ in_field field (any (starts_with start.now) (words texts.now.title.now)) (any (starts_with start.now) (words texts.now.body.now)) }
{
    in_field(field, texts, |text| has_beginning(text, start))
}

// Whether both words are in the body, at most so many places apart.
#[inline(never)]
fn near_in_body(texts: &Texts<'_>, most: u64, a: &[u8], b: &[u8]) -> bool
    ensures { result ≡ near_in most a.now b.now (words texts.now.body.now) }
{
    has_near(texts.body, most, a, b)
}

// What is asked of a document.
#[derive(Drop)]
pub enum Query {
    Word(Field, Vec<u8>),
    // These words one after the other.
    Phrase(Field, Vec<Vec<u8>>),
    // A word that begins so.
    Begins(Field, Vec<u8>),
    // Both words in the body, at most so many places apart.
    Near(u64, Vec<u8>, Vec<u8>),
    Both(Box<Query>, Box<Query>),
    Either(Box<Query>, Box<Query>),
    // The first and not the second.
    But(Box<Query>, Box<Query>),
}

impl Query {
    // Whether a document of these texts matches.
    pub fn matches(&self, texts: Texts<'_>) -> bool
        ensures { MatchesSo self.now texts.entry.title.now texts.entry.body.now result }
    {
        self.asked(&texts)
    }

    // The same, with the texts lent: each question within another would need a copy of them on the stack.
    fn asked(&self, texts: &Texts<'_>) -> bool
        ensures { MatchesSo self.now texts.now.title.now texts.now.body.now result }
    {
        match self {
            Query::Word(field, word) => word_in(*field, texts, word.as_slice()),
            Query::Phrase(field, words) => phrase_in(*field, texts, words.as_slice()),
            Query::Begins(field, start) => beginning_in(*field, texts, start.as_slice()),
            Query::Near(most, a, b) => near_in_body(texts, *most, a.as_slice(), b.as_slice()),
            Query::Both(a, b) => a.asked(texts) && b.asked(texts),
            Query::Either(a, b) => a.asked(texts) || b.asked(texts),
            Query::But(a, b) => a.asked(texts) && !b.asked(texts),
        }
    }
}
