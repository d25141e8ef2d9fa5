use super::*;
use documents::Texts;
use std::alloc::{AllocError, Global};
use std::test::Fail;

const TITLE: &[u8] = b"Coolant";

const BODY: &[u8] = b"Smell of coolant near the aft bearing, no smoke";

// A title and a body together.
fn texts<'a>(title: &'a [u8], body: &'a [u8]) -> Texts<'a> {
    Texts { title, body }
}

// A question for a word in the title or the body.
fn word(heap: Global, letters: &[u8]) -> Result<Query, AllocError> {
    let letters = Vec::from_slice(heap, letters)?;
    Ok(Query::Word(Field::Either, letters))
}

// A question for one thing and not another.
fn but(heap: Global, a: Query, b: Query) -> Result<Query, AllocError> {
    let a = Box::new(heap, a)?;
    let b = Box::new(heap, b)?;
    Ok(Query::But(a, b))
}

#[test]
fn words_and_beginnings(rt: HostRuntime) {
    assert!(rt; has_word(BODY, b"smoke"));
    assert!(rt; !has_word(BODY, b"smok"));
    assert!(rt; has_beginning(BODY, b"smok"));
    assert!(rt; !has_beginning(BODY, b"smokes"));
}

#[test]
fn what_is_near(rt: HostRuntime) {
    assert!(rt; has_near(BODY, 2, b"coolant", b"smell"));
    assert!(rt; !has_near(BODY, 1, b"coolant", b"smell"));
}

#[test]
fn phrases(rt: HostRuntime) -> Result<(), Fail> {
    let heap = rt.alloc();
    let mut phrase = Vec::new(heap);
    phrase.push(Vec::from_slice(heap, b"no")?)?;
    phrase.push(Vec::from_slice(heap, b"smoke")?)?;
    assert!(rt; has_phrase(BODY, phrase.as_slice()));
    assert!(rt; !has_phrase(b"Smoke, no drill", phrase.as_slice()));
    Ok(())
}

#[test]
fn one_thing_and_not_another(rt: HostRuntime) -> Result<(), Fail> {
    let heap = rt.alloc();
    let question = but(heap, word(heap, b"smoke")?, word(heap, b"drill")?)?;
    assert!(rt; question.matches(texts(TITLE, BODY)));
    assert!(rt; !question.matches(texts(TITLE, TITLE)));
    assert!(rt; !question.matches(texts(b"Drill", BODY)));
    Ok(())
}

#[test]
fn in_the_title_alone(rt: HostRuntime) -> Result<(), Fail> {
    let question = Query::Begins(Field::Title, Vec::from_slice(rt.alloc(), b"cool")?);
    assert!(rt; question.matches(texts(TITLE, b"Smoke")));
    assert!(rt; !question.matches(texts(b"Smoke", BODY)));
    Ok(())
}
