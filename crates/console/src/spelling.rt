// Commands in the bytes that the engine reads.
ghost use Rattle.std.specs.Prelude.{◌≡◌, ◌<◌, ◌∷◌, ◌++◌, length, IfOk, OnOk};
ghost use Rattle.pages.specs.Bytes.{eight, with_length};
ghost use Rattle.questions.specs.Spelling.{query_spelled};
ghost use Rattle.reports.specs.Command.{put, remove, note, ask, how_many, fetch, spelled};
ghost use Rattle.reports.specs.Verbs.{verb_number};
ghost use Rattle.console.specs.Typed.{query_of, all_of, Good, SpelledSo};

use crate::typed::{Request, Word};
use questions::Kind;
use reports::Verb;
use std::alloc::{AllocError, Global};

// The command that is asked for; what is not for the engine has none.
pub fn command_bytes(heap: Global, request: &Request<'_>) -> Result<Option<Vec<u8>>, AllocError>
    ensures { IfOk result (λ o. Good request.now → SpelledSo request.now o) }
{
    match request {
        Request::Put { name, title, body } => {
            spell_put(heap, *name, title.as_bytes(), body.as_bytes()).map(Some)
        }
        Request::Remove(name) => spell_remove(heap, *name).map(Some),
        Request::Note => spell_note(heap).map(Some),
        Request::Ask(most, words) => spell_ask(heap, *most, words.as_slice()).map(Some),
        Request::Count(words) => spell_count(heap, words.as_slice()).map(Some),
        Request::Fetch(name) => spell_fetch(heap, *name).map(Some),
        Request::Help | Request::Quit => Ok(None),
    }
}

// A document to be kept: its name, its title and its body.
pub fn spell_put(heap: Global, name: u64, title: &[u8], body: &[u8]) -> Result<Vec<u8>, AllocError>
    ensures { IfOk result (λ v. v.items ≡ spelled (put name title.now body.now)) }
{
    let mut bytes = tagged(heap, Verb::Put, name)?;
    add_with_length(&mut bytes, title)?;
    add_with_length(&mut bytes, body)?;
    Ok(bytes)
}

// A document to be removed. Like the others a line over `tagged`: each command has a function of its own, whose contract names it.
pub fn spell_remove(heap: Global, name: u64) -> Result<Vec<u8>, AllocError>
    ensures { IfOk result (λ v. v.items ≡ spelled (remove name)) }
{
    tagged(heap, Verb::Remove, name)
}

// What was put and removed is to be found from now on.
pub fn spell_note(heap: Global) -> Result<Vec<u8>, AllocError>
    ensures { IfOk result (λ v. v.items ≡ spelled note) }
{
    Vec::from_slice(heap, &[u8::from(Verb::Note)])
}

// A document to be shown.
pub fn spell_fetch(heap: Global, name: u64) -> Result<Vec<u8>, AllocError>
    ensures { IfOk result (λ v. v.items ≡ spelled (fetch name)) }
{
    tagged(heap, Verb::Fetch, name)
}

// The best so many documents that have all of these words, of which there is one at least: of no words nothing is said. That stays a condition here and
// below, and no type of words asks for one, since then whoever has none could not call.
pub fn spell_ask(heap: Global, most: u64, words: &[Word]) -> Result<Vec<u8>, AllocError>
    ensures { IfOk result (λ v. 0 < length words.now → v.items ≡ spelled (ask most (all_of words.now))) }
{
    let mut bytes = tagged(heap, Verb::Ask, most)?;
    add_words(&mut bytes, words)?;
    Ok(bytes)
}

// How many documents have all of these words, of which there is one at least.
pub fn spell_count(heap: Global, words: &[Word]) -> Result<Vec<u8>, AllocError>
    ensures { IfOk result (λ v. 0 < length words.now → v.items ≡ spelled (how_many (all_of words.now))) }
{
    let mut bytes = Vec::from_slice(heap, &[u8::from(Verb::Count)])?;
    add_words(&mut bytes, words)?;
    Ok(bytes)
}

// Which command it is, and a number.
fn tagged(heap: Global, verb: Verb, number: u64) -> Result<Vec<u8>, AllocError>
    ensures { IfOk result (λ v. v.items ≡ verb_number verb ∷ eight number) }
{
    let mut bytes = Vec::from_slice(heap, &[u8::from(verb)])?;
    bytes.extend_from_slice(&number.to_be_bytes())?;
    Ok(bytes)
}

// Adds bytes with their count before them.
fn add_with_length(bytes: &mut Vec<u8>, text: &[u8]) -> Result<(), AllocError>
    ensures { OnOk result (bytes.new.items ≡ bytes.old.items ++ with_length text.now) }
{
    bytes.extend_from_slice(&(text.len() as u64).to_be_bytes())?;
    bytes.extend_from_slice(text)
}

// Adds a question for all of these words: "both" stands before each but the last.
fn add_words(bytes: &mut Vec<u8>, words: &[Word]) -> Result<(), AllocError>
    ensures { OnOk result (0 < length words.now → bytes.new.items ≡ bytes.old.items ++ query_spelled (all_of words.now)) }
{
    let Some((last, others)) = words.split_last() else {
        return Ok(());
    };
    for word in others {
        bytes.push(u8::from(Kind::Both))?;
        add_word(bytes, word)?;
    }
    add_word(bytes, last)
}

// Adds a question for one word.
fn add_word(bytes: &mut Vec<u8>, word: &Word) -> Result<(), AllocError>
    ensures { OnOk result (bytes.new.items ≡ bytes.old.items ++ query_spelled (query_of word.now)) }
{
    bytes.extend_from_slice(&[u8::from(Kind::Word), word.field])?;
    add_with_length(bytes, word.letters.as_slice())
}
