// Reading a question from lent bytes. Nothing is copied: what is read is a part of them, and what comes after it.
ghost use Rattle.std.specs.Prelude.{◌≡◌, MatchOption};
ghost use Rattle.questions.specs.Query.{Query};
ghost use Rattle.questions.specs.Spelling.{a_word};
ghost use Rattle.questions.specs.Kinds.{kind_number};
ghost use Rattle.questions.specs.Reading.{nothing, got, whole, Left, small_letter, read_number, read_within, read_bytes, read_word, read_words, read_phrase, read_field, read_near, read_single, read_query};

use crate::{Field, Kind};
use words::in_word;

// Of a longer word only so many bytes count, so none is asked for.
const LONGEST_WORD: usize = 64;

// A question was read: how many parts may still follow, and the bytes after it.
#[derive(Clone, Copy, Debug, PartialEq, Eq)]
pub struct Question<'a> {
    pub left: u64,
    pub rest: &'a [u8],
}

// A number of eight bytes, the highest first, and the bytes after it. A number is told as it is, and bytes as what they are now: one definition for both,
// as `Left` is for the bytes after it alone, would have to be given that difference each time, and be no shorter.
pub fn read_number(bytes: &[u8]) -> Option<(u64, &[u8])>
    ensures { MatchOption result (read_number bytes.now ≡ nothing) (λ p. read_number bytes.now ≡ got p.0 p.1.now) }
{
    let (eight, rest) = bytes.split_first_chunk::<8>()?;
    Some((u64::from_be_bytes(*eight), rest))
}

// A number from `low` to `high`, and the bytes after it.
pub fn read_within(bytes: &[u8], low: u64, high: u64) -> Option<(u64, &[u8])>
    ensures { MatchOption result (read_within low high bytes.now ≡ nothing) (λ p. read_within low high bytes.now ≡ got p.0 p.1.now) }
{
    let (n, rest) = read_number(bytes)?;
    (low..=high).contains(&n).then_some((n, rest))
}

// How many bytes, as a number; then so many bytes, and those after them. The clause is written out: here a number is told as it is, there bytes are.
pub fn read_bytes(bytes: &[u8]) -> Option<(&[u8], &[u8])>
    ensures { MatchOption result (read_bytes bytes.now ≡ nothing) (λ p. read_bytes bytes.now ≡ got p.0.now p.1.now) }
{
    let (count, rest) = read_number(bytes)?;
    rest.split_at_checked(count as usize)
}

// Whether a byte may stand in a word of a question: a small letter, a digit, or a byte from 128 up.
fn in_question(byte: u8) -> bool
    ensures { result ≡ small_letter byte }
{
    in_word(byte) && !byte.is_ascii_uppercase()
}

// Whether the bytes are a word as questions have it: 1 to 64 bytes, all of them in words, no capitals.
pub fn is_word(bytes: &[u8]) -> bool
    ensures { result ≡ a_word bytes.now }
{
    !bytes.is_empty() && bytes.len() <= LONGEST_WORD && bytes.iter().all(|byte| in_question(*byte))
}

// What stands after a word.
fn read_word(bytes: &[u8]) -> Option<&[u8]>
    ensures { Left (read_word bytes.now) result }
{
    let (word, rest) = read_bytes(bytes)?;
    is_word(word).then_some(rest)
}

// What stands after so many words.
fn read_words(bytes: &[u8], count: u64) -> Option<&[u8]>
    ensures { Left (read_words count bytes.now) result }
{
    let mut rest = bytes;
    for _ in 0..count {
        rest = read_word(rest)?;
    }
    Some(rest)
}

// What stands after the words of a phrase: 1 to 16.
fn read_phrase(bytes: &[u8]) -> Option<&[u8]>
    ensures { Left (read_phrase bytes.now) result }
{
    let (count, rest) = read_within(bytes, 1, 16)?;
    read_words(rest, count)
}

// What stands after a field.
fn read_field(bytes: &[u8]) -> Option<&[u8]>
    ensures { Left (read_field bytes.now) result }
{
    let (byte, rest) = bytes.split_first()?;
    Field::try_from(*byte).ok()?;
    Some(rest)
}

// What stands after two words and how far apart they may be: 1 to 64.
fn read_near(bytes: &[u8]) -> Option<&[u8]>
    ensures { Left (read_near bytes.now) result }
{
    let (_, first) = read_within(bytes, 1, 64)?;
    let second = read_word(first)?;
    read_word(second)
}

// What stands after a question of one part, of this kind; the kinds that join two questions have no such part. It stands apart from `read_question`, which
// so needs less of the stack for each question within another.
fn read_single(kind: Kind, bytes: &[u8]) -> Option<&[u8]>
    ensures { Left (read_single (kind_number kind) bytes.now) result }
{
    match kind {
        Kind::Word | Kind::Begins => read_word(read_field(bytes)?),
        Kind::Phrase => read_phrase(read_field(bytes)?),
        Kind::Near => read_near(bytes),
        Kind::Both | Kind::Either | Kind::But => None,
    }
}

// A question, nested at most so deep and of at most so many parts.
pub fn read_question<'a>(bytes: &'a [u8], depth: u64, left: u64) -> Option<Question<'a>>
    ensures { MatchOption result (read_query depth left bytes.now ≡ nothing) (λ a. (q : Query) × (read_query depth left bytes.now ≡ whole a.left q a.rest.now)) }
{
    let depth = depth.checked_sub(1)?;
    let left = left.checked_sub(1)?;
    let (byte, rest) = bytes.split_first()?;
    let kind = Kind::try_from(*byte).ok()?;
    match kind {
        Kind::Word | Kind::Phrase | Kind::Begins | Kind::Near => {
            let rest = read_single(kind, rest)?;
            Some(Question { left, rest })
        }
        Kind::Both | Kind::Either | Kind::But => {
            let first = read_question(rest, depth, left)?;
            read_question(first.rest, depth, first.left)
        }
    }
}
