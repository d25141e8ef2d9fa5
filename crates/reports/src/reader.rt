// Reading a command from lent bytes. Nothing is copied: what a request has of texts and questions are parts of them.
#![tactic(auto, using(crate::proofs::Requests::handing_on), unfolding(crate::specs::Reading::read_text, crate::specs::Reading::read_beginning, crate::specs::Reading::read_kind, crate::specs::Request::Handed))]

ghost use Rattle.std.specs.Prelude.{◌≡◌, [], MatchOption};
ghost use Rattle.pages.specs.Lists.{or, none_of};
ghost use Rattle.questions.specs.Spelling.{a_word};
ghost use Rattle.questions.specs.Reading.{nothing, got, read_number, read_query};
ghost use Rattle.reports.specs.Reading.{read_text, read_beginning, read_kind, all_of_it, last, is_whole};
ghost use Rattle.reports.specs.Command.{Command};
ghost use Rattle.reports.specs.Request.{Handed, Hands, Reads, TextRead};
ghost use Rattle.reports.specs.Verbs.{verb_number};

use crate::verb::Verb;
use questions::{is_word, read_bytes, read_number, read_question, read_within};

// A command as it was read: texts are parts of the lent bytes, and a question is left as it is spelled. The console has a request of its own, a person's:
// there a question is a list of words, and what was typed is text.
#[derive(Clone, Copy)]
pub enum Request<'a> {
    Put {
        name: u64,
        title: &'a [u8],
        body: &'a [u8],
    },
    Remove(u64),
    // What was put and removed is there from now on.
    Note,
    // The best so many hits of a question.
    Ask(u64, &'a [u8]),
    // How many documents match a question.
    Count(&'a [u8]),
    // A document.
    Fetch(u64),
    // The words that begin so, the first so many.
    Words(&'a [u8], u64),
    Sweep,
}

// A question has at most so many parts.
const MOST_PARTS: u64 = 31;

// Bytes with their count, at most so many, and the bytes after them.
fn read_text(bytes: &[u8], most: usize) -> Option<(&[u8], &[u8])>
    ensures { TextRead (read_text most bytes.now) result }
{
    read_bytes(bytes).filter(|(text, _)| text.len() <= most)
}

// Whether words may be asked to begin so: with nothing, or like a word.
fn is_beginning(bytes: &[u8]) -> bool
    ensures { result ≡ or (none_of bytes.now) (a_word bytes.now) }
{
    bytes.is_empty() || is_word(bytes)
}

// How words begin, which may be empty, and the bytes after it.
fn read_beginning(bytes: &[u8]) -> Option<(&[u8], &[u8])>
    ensures { TextRead (read_beginning bytes.now) result }
{
    read_bytes(bytes).filter(|(start, _)| is_beginning(start))
}

// A name and nothing after it.
fn read_name(bytes: &[u8]) -> Option<u64>
    ensures { MatchOption result (last (read_number bytes.now) ≡ nothing) (λ n. last (read_number bytes.now) ≡ got n []) }
{
    let (name, rest) = read_number(bytes)?;
    rest.is_empty().then_some(name)
}

// Whether the bytes are a question and nothing else.
fn is_question(bytes: &[u8]) -> bool
    ensures { result ≡ is_whole (read_query 31 31 bytes.now) }
{
    read_question(bytes, MOST_PARTS, MOST_PARTS).is_some_and(|question| question.rest.is_empty())
}

// The request, if nothing stands after it.
fn alone<'a>(request: Request<'a>, rest: &[u8]) -> Option<Request<'a>>
    ensures { (c : Command) → Handed c request.entry → Hands (all_of_it (got c rest.now)) result }
{
    rest.is_empty().then_some(request)
}

// A name, a title of at most 255 bytes and a body of at most 65,535.
fn read_put<'a>(bytes: &'a [u8]) -> Option<Request<'a>>
    ensures { Hands (all_of_it (read_kind 1 bytes.now)) result }
{
    let (name, texts) = read_number(bytes)?;
    let (title, second) = read_text(texts, 255)?;
    let (body, rest) = read_text(second, 65_535)?;
    alone(Request::Put { name, title, body }, rest)
}

// How many of the best, 1 to 1,000, and a question.
fn read_ask<'a>(bytes: &'a [u8]) -> Option<Request<'a>>
    ensures { Hands (all_of_it (read_kind 4 bytes.now)) result }
{
    let (most, question) = read_within(bytes, 1, 1000)?;
    is_question(question).then_some(Request::Ask(most, question))
}

// How words begin, and how many of them, 1 to 1,000.
fn read_words<'a>(bytes: &'a [u8]) -> Option<Request<'a>>
    ensures { Hands (all_of_it (read_kind 7 bytes.now)) result }
{
    let (start, second) = read_beginning(bytes)?;
    let (most, rest) = read_within(second, 1, 1000)?;
    alone(Request::Words(start, most), rest)
}

// The request of this verb that these bytes are. Of the verbs that are read here, two have a name, two have nothing, and one has a question.
fn read_kind<'a>(verb: Verb, bytes: &'a [u8]) -> Option<Request<'a>>
    ensures { Hands (all_of_it (read_kind (verb_number verb) bytes.now)) result }
{
    match verb {
        Verb::Put => read_put(bytes),
        Verb::Remove => Some(Request::Remove(read_name(bytes)?)),
        Verb::Note => alone(Request::Note, bytes),
        Verb::Ask => read_ask(bytes),
        Verb::Count => is_question(bytes).then_some(Request::Count(bytes)),
        Verb::Fetch => Some(Request::Fetch(read_name(bytes)?)),
        Verb::Words => read_words(bytes),
        Verb::Sweep => alone(Request::Sweep, bytes),
    }
}

// The command that the bytes spell, or none if they spell none that is known.
pub fn read_command<'a>(bytes: &'a [u8]) -> Option<Request<'a>>
    ensures { Reads bytes.now result }
{
    let (byte, rest) = bytes.split_first()?;
    let verb = Verb::try_from(*byte).ok()?;
    read_kind(verb, rest)
}
