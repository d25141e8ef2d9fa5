use super::*;
use documents::Texts;
use matching::{Field, Query};
use reports::Refusal;
use std::alloc::AllocError;
use std::process::Abort;
use std::test::Fail;

// An answer is done, and these rows are shown.
fn check_rows(rt: &impl Abort, answer: &Answer, expected: &[&[u8]]) {
    let Ok(rows) = answer else {
        panic!(rt; "the command was refused");
    };
    assert_eq!(rt; rows.len(), expected.len());
    for (row, text) in rows.iter().zip(expected) {
        assert_eq!(rt; row.as_slice(), *text);
    }
}

// An answer is refused, by this number, for this reason.
fn check_refused(rt: &impl Abort, answer: &Answer, refusal: Refusal, number: u64) {
    let Err(reason) = answer else {
        panic!(rt; "the command was not refused");
    };
    assert_eq!(rt; *reason, refusal);
    assert_eq!(rt; u64::from(*reason), number);
}

// Puts a document of this name, title and body.
fn put(plain: &mut Plain, name: u64, title: &[u8], body: &[u8]) -> Result<Answer, AllocError> {
    plain.put(name, Texts { title, body })
}

// The names of two documents.
fn check_names(rt: &impl Abort, documents: &[Document], first: u64, second: u64) {
    assert!(rt; documents.len() == 2);
    assert_eq!(rt; documents[0].name(), first);
    assert_eq!(rt; documents[1].name(), second);
}

#[test]
fn a_note_makes_documents_askable(rt: HostRuntime) -> Result<(), Fail> {
    let mut plain = Plain::new(rt.alloc());
    check_rows(&rt, &put(&mut plain, 7, b"Drill", b"Smoke seen")?, &[]);
    check_refused(&rt, &plain.fetch(7)?, Refusal::NoSuchName, 3);
    check_rows(&rt, &plain.note()?, &[]);
    check_rows(&rt, &plain.fetch(7)?, &[b"Drill", b"Smoke seen"]);
    check_rows(&rt, &put(&mut plain, 7, b"Drill", b"None")?, &[]);
    check_rows(&rt, &plain.fetch(7)?, &[b"Drill", b"Smoke seen"]);
    assert_eq!(rt; plain.weight(), Some(256 + 15 + 256 + 9));
    check_rows(&rt, &plain.sweep()?, &[]);
    check_rows(&rt, &plain.fetch(7)?, &[b"Drill", b"None"]);
    assert_eq!(rt; plain.gone().len(), 0);
    Ok(())
}

#[test]
fn documents_stand_by_name(rt: HostRuntime) -> Result<(), Fail> {
    let mut plain = Plain::new(rt.alloc());
    check_refused(&rt, &plain.remove(2)?, Refusal::NoSuchName, 3);
    check_rows(&rt, &put(&mut plain, 9, b"", b"a")?, &[]);
    check_rows(&rt, &put(&mut plain, 2, b"", b"b")?, &[]);
    check_rows(&rt, &put(&mut plain, 5, b"", b"c")?, &[]);
    check_rows(&rt, &plain.remove(5)?, &[]);
    check_names(&rt, plain.coming(), 2, 9);
    assert_eq!(rt; plain.gone().len(), 1);
    assert_eq!(rt; plain.asked().len(), 0);
    Ok(())
}

#[test]
fn what_was_not_noted_is_gone_after_a_stop(rt: HostRuntime) -> Result<(), Fail> {
    let mut plain = Plain::new(rt.alloc());
    check_rows(&rt, &put(&mut plain, 1, b"", b"a")?, &[]);
    check_rows(&rt, &put(&mut plain, 2, b"", b"b")?, &[]);
    check_rows(&rt, &plain.note()?, &[]);
    check_rows(&rt, &put(&mut plain, 3, b"", b"c")?, &[]);
    plain.after_stop()?;
    check_names(&rt, plain.coming(), 1, 2);
    check_names(&rt, plain.asked(), 1, 2);
    assert_eq!(rt; plain.gone().len(), 3);
    Ok(())
}

#[test]
fn documents_that_match_are_counted(rt: HostRuntime) -> Result<(), Fail> {
    let heap = rt.alloc();
    let mut plain = Plain::new(heap);
    check_rows(&rt, &put(&mut plain, 1, b"Drill", b"Smoke seen")?, &[]);
    check_rows(&rt, &plain.note()?, &[]);
    let smoke = Query::Word(Field::Either, Vec::from_slice(heap, b"smoke")?);
    check_rows(&rt, &plain.how_many(&smoke)?, &[&[0, 0, 0, 0, 0, 0, 0, 1]]);
    Ok(())
}

#[test]
fn an_engine_is_made_of_lists_and_taken_apart(rt: HostRuntime) -> Result<(), Fail> {
    let heap = rt.alloc();
    let drill = Document {
        name: 7,
        title: Vec::from_slice(heap, b"Drill")?,
        body: Vec::from_slice(heap, b"Smoke seen")?,
    };
    let mut asked = Vec::new(heap);
    asked.push(drill.copy(heap)?)?;
    let mut gone = Vec::new(heap);
    gone.push(drill)?;
    let plain = Plain {
        heap,
        asked,
        coming: Vec::new(heap),
        gone,
    };
    check_rows(&rt, &plain.fetch(7)?, &[b"Drill", b"Smoke seen"]);
    assert_eq!(rt; plain.weight(), Some(256 + 15));
    assert_eq!(rt; plain.coming.len(), 0);
    let Plain {
        heap: _heap,
        asked,
        coming: _coming,
        mut gone,
    } = plain;
    assert_eq!(rt; asked.len(), 1);
    assert_eq!(rt; asked[0].name, 7);
    let Some(document) = gone.pop() else {
        panic!(rt; "nothing is gone");
    };
    let Document { name, title, body } = document;
    assert_eq!(rt; name, 7);
    assert_eq!(rt; title.as_slice(), b"Drill".as_slice());
    assert_eq!(rt; body.as_slice(), b"Smoke seen".as_slice());
    Ok(())
}
