// Whether a text has what a question asks for. Its words are gone through as they stand in it.
ghost use Rattle.std.specs.Prelude.{◌≡◌, ◌&&◌, map, vec_items};
ghost use Rattle.pages.specs.Lists.{any, each, same, starts_with};
ghost use Rattle.words.specs.Words.{small, words};
ghost use Rattle.words.specs.Stretches.{to_come};
ghost use Rattle.words.specs.Standing.{word_of};
ghost use Rattle.questions.specs.Query.{words_here, words_somewhere, within, near_in};

use words::{Word, Words, compare_to_key};

// Whether a text has this word.
pub fn has_word(text: &[u8], word: &[u8]) -> bool
    ensures { result ≡ any (same word.now) (words text.now) }
{
    Words::new(text).any(|found| is_word(found.bytes(text), word))
}

// Whether a text has a word that begins so.
pub fn has_beginning(text: &[u8], start: &[u8]) -> bool
    ensures { result ≡ any (starts_with start.now) (words text.now) }
{
    Words::new(text).any(|found| begins(found.bytes(text), start))
}

// Whether a text has these words one after the other.
pub fn has_phrase(text: &[u8], phrase: &[Vec<u8>]) -> bool
    ensures { result ≡ words_somewhere (map vec_items phrase.now) (words text.now) }
{
    phrase.is_empty() || Words::new(text).any(|found| phrase_here(text, found.start, phrase))
}

// Whether a text has both words at most so many places apart.
pub fn has_near(text: &[u8], most: u64, a: &[u8], b: &[u8]) -> bool
    ensures { result ≡ near_in most a.now b.now (words text.now) }
{
    Words::new(text).any(|found| near_here(text, found, most, a, b)
        || near_here(text, found, most, b, a))
}

// Whether the bytes of a word, as they stand in a text, are this one.
fn is_word(bytes: &[u8], word: &[u8]) -> bool
    ensures { result ≡ same word.now (each small bytes.now) }
{
    compare_to_key(bytes, word).is_eq()
}

// Whether the bytes of a word, as they stand in a text, begin so. `is_some_and` would say the same: the check left its one goal open, and here it gives
// the front that is there and the one that is not apart.
fn begins(bytes: &[u8], start: &[u8]) -> bool
    ensures { result ≡ starts_with start.now (each small bytes.now) }
{
    match bytes.get(..start.len()) {
        Some(front) => compare_to_key(front, start).is_eq(),
        None => false,
    }
}

// Whether these words stand one after the other from a place on.
fn phrase_here(text: &[u8], from: usize, phrase: &[Vec<u8>]) -> bool
    ensures { result ≡ words_here (map vec_items phrase.now) (to_come text.now from) }
{
    let matched = phrase
        .iter()
        .zip(Words::from_offset(text, from))
        .take_while(|(word, found)| is_word(found.bytes(text), word.as_slice()))
        .count();
    matched == phrase.len()
}

// Whether the word that stands there is the first of two, and the second comes at most so many places after it.
fn near_here(text: &[u8], found: Word, most: u64, first: &[u8], second: &[u8]) -> bool
    ensures { result ≡ (same (word_of text.now found) first.now && within most second.now (to_come text.now found.end)) }
{
    is_word(found.bytes(text), first) && comes_within(text, found.end, most, second)
}

// Whether a word is among the next so many from a place on.
fn comes_within(text: &[u8], from: usize, most: u64, key: &[u8]) -> bool
    ensures { result ≡ within most key.now (to_come text.now from) }
{
    Words::from_offset(text, from)
        .take(most as usize)
        .any(|found| is_word(found.bytes(text), key))
}
