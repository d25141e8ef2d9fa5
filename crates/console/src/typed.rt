// A line that someone typed, and what it asks for.
ghost use Rattle.std.specs.Prelude.{◌≡◌, ◌<◌, ◌^◌, true, IfOk};
ghost use Rattle.console.specs.Typed.{good_word, letters_of, GoodWords, Good};

use questions::{Field, is_word};
use std::alloc::{AllocError, AllocFailed, Global};
use thiserror::Error;
use words::{in_word, made_small};

// So many words at most: they make 31 parts of a question, with a "both" between any two.
const MOST_WORDS: usize = 16;

// So many bytes of a word count.
const LONGEST_WORD: usize = 64;

// So many hits at most.
const MOST_HITS: u64 = 1000;

// A word and where it is looked for: 1 in the title, 2 in the body, 0 in both, as `Field` has them. It stays a byte here, so that any can be spelled: a
// question with one above 2 is refused by the engine alone.
#[derive(Drop)]
pub struct Word {
    pub field: u8,
    pub letters: Vec<u8>,
}

// What a person asks for, in words and text, help and quit among it. Six of these stand in `reports::Request` too: that is what the engine reads out of
// bytes, and has texts as bytes and questions as they are spelled.
#[derive(Drop)]
pub enum Request<'a> {
    Put {
        name: u64,
        title: &'a str,
        body: &'a str,
    },
    Remove(u64),
    Note,
    // The best so many that have all the words.
    Ask(u64, Vec<Word>),
    // How many have all the words.
    Count(Vec<Word>),
    Fetch(u64),
    Help,
    Quit,
}

// What was expected in place of what was typed.
#[derive(Clone, Copy, Debug, Error)]
pub enum Misread<'a> {
    #[error("expected put, remove, note, ask, count, fetch, help or quit, not {0:?}")]
    Verb(&'a str),
    // This verb stands alone.
    #[error("expected nothing after {0}")]
    Alone(&'a str),
    #[error("expected a number from 0 to 18446744073709551615, not {0:?}")]
    Number(&'a str),
    #[error("expected a number, a title, \" | \" and a body")]
    Bar,
    #[error("expected a title of at most 255 bytes, not {0}")]
    LongTitle(usize),
    #[error("expected a body of at most 65535 bytes, not {0}")]
    LongBody(usize),
    #[error("expected how many are wanted, from 1 to 1000, not {0:?}")]
    Most(&'a str),
    #[error("expected words to look for")]
    NoWords,
    // More words than a question can have.
    #[error("expected at most 16 words: n words make 2n-1 parts, of at most 31")]
    ManyWords,
    #[error("expected a word of letters and digits, not {0:?}")]
    NoWord(&'a str),
    #[error("there is no memory left")]
    NoMemory,
}

impl From<AllocError> for Misread<'_> {
    fn from(_error: AllocError) -> Self {
        Misread::NoMemory
    }
}

impl<T: Drop> From<AllocFailed<T>> for Misread<'_> {
    fn from(_refused: AllocFailed<T>) -> Self {
        Misread::NoMemory
    }
}

// What a line asks for. The engine never says of it that it is no command. That stays a fact of what was read, and is none of the type's: anyone may
// make a request, and `command_bytes` takes any.
pub fn read_request<'a>(heap: Global, line: &'a str) -> Result<Request<'a>, Misread<'a>>
    ensures { IfOk result Good }
{
    let (verb, rest) = split_first(line.trim());
    match verb {
        "put" => read_put(rest),
        "remove" => Ok(Request::Remove(read_number(rest)?)),
        "note" => alone(verb, rest, Request::Note),
        "ask" => read_ask(heap, rest),
        "count" => read_count(heap, rest),
        "fetch" => Ok(Request::Fetch(read_number(rest)?)),
        "help" => alone(verb, rest, Request::Help),
        "quit" => alone(verb, rest, Request::Quit),
        _ => Err(Misread::Verb(verb)),
    }
}

// The first of the words, and what comes after it.
fn split_first(text: &str) -> (&str, &str) {
    match text.split_once(' ') {
        Some((first, rest)) => (first, rest.trim()),
        None => (text, ""),
    }
}

// What a verb asks for after which nothing comes.
fn alone<'a>(verb: &'a str, rest: &'a str, asked: Request<'a>) -> Result<Request<'a>, Misread<'a>>
    ensures { IfOk result (λ r. r ≡ asked.entry) }
{
    if rest.is_empty() {
        Ok(asked)
    } else {
        Err(Misread::Alone(verb))
    }
}

// A number in decimal digits. That it is below 2^64 is said here and not left to its type: without it that fact stayed open in `read_request`, where the
// number comes out of a `?`.
fn read_number(text: &str) -> Result<u64, Misread<'_>>
    ensures { IfOk result (λ n. n < 2 ^ 64) }
{
    text.parse().map_err(|_| Misread::Number(text))
}

// A number, a title, a bar and a body.
fn read_put<'a>(text: &'a str) -> Result<Request<'a>, Misread<'a>>
    ensures { IfOk result Good }
{
    let Some((head, body)) = text.split_once(" | ") else {
        return Err(Misread::Bar);
    };
    let (number, title) = split_first(head);
    put(read_number(number)?, title, body)
}

// A document, if it is not too long.
fn put<'a>(name: u64, title: &'a str, body: &'a str) -> Result<Request<'a>, Misread<'a>>
    ensures { IfOk result Good }
{
    if title.len() > 255 {
        return Err(Misread::LongTitle(title.len()));
    }
    if body.len() > 65535 {
        return Err(Misread::LongBody(body.len()));
    }
    Ok(Request::Put { name, title, body })
}

// How many are wanted, and words.
fn read_ask<'a>(heap: Global, text: &'a str) -> Result<Request<'a>, Misread<'a>>
    ensures { IfOk result Good }
{
    let (number, rest) = split_first(text);
    let most = read_number(number)?;
    if !(1..=MOST_HITS).contains(&most) {
        return Err(Misread::Most(number));
    }
    let words = read_words(heap, rest)?;
    Ok(Request::Ask(most, words))
}

// The words that the documents to be counted have.
fn read_count<'a>(heap: Global, text: &'a str) -> Result<Request<'a>, Misread<'a>>
    ensures { IfOk result Good }
{
    let words = read_words(heap, text)?;
    Ok(Request::Count(words))
}

// Words with spaces between them, one at least and 16 at most.
fn read_words<'a>(heap: Global, text: &'a str) -> Result<Vec<Word>, Misread<'a>>
    ensures { IfOk result (λ ws. GoodWords ws.items) }
{
    let mut words = Vec::new(heap);
    for piece in text.split_whitespace() {
        if words.len() == MOST_WORDS {
            return Err(Misread::ManyWords);
        }
        let word = read_word(heap, piece)?;
        words.push(word)?;
    }
    if words.is_empty() {
        return Err(Misread::NoWords);
    }
    Ok(words)
}

// A word, with where it is looked for before it.
fn read_word<'a>(heap: Global, text: &'a str) -> Result<Word, Misread<'a>>
    ensures { IfOk result (λ w. good_word w ≡ true) }
{
    let (field, rest) = field_of(text);
    let letters = letters(heap, rest.as_bytes())?;
    if !rest.bytes().all(in_word) || !is_word(letters.as_slice()) {
        return Err(Misread::NoWord(text));
    }
    Ok(Word {
        field: u8::from(field),
        letters,
    })
}

// Where a word is looked for, and the rest of it.
fn field_of(text: &str) -> (Field, &str) {
    if let Some(rest) = text.strip_prefix("title:") {
        (Field::Title, rest)
    } else if let Some(rest) = text.strip_prefix("body:") {
        (Field::Body, rest)
    } else {
        (Field::Either, text)
    }
}

// Bytes as a word of the engine's has them: small, and 64 at most.
fn letters(heap: Global, bytes: &[u8]) -> Result<Vec<u8>, AllocError>
    ensures { IfOk result (λ v. v.items ≡ letters_of bytes.now) }
{
    bytes
        .iter()
        .map(|b| made_small(*b))
        .take(LONGEST_WORD)
        .collect(heap)
}
