// The words of a text, one after the other as they stand in it, and their order. The text is lent and never copied:
// a word is its place in the text, and capitals are made small as bytes are compared.
#![tactic(auto)]

ghost use Rattle.std.specs.Prelude.{◌≡◌, [], length, take, drop, MatchOption, ⊤};
ghost use Rattle.std.specs.Iterator.{YieldsFirst, MakesProgress, item_count};
ghost use Rattle.words.specs.Words.{in_word, small, words};
ghost use Rattle.pages.specs.Lists.{each};
ghost use Rattle.words.specs.Compared.{Compared};
ghost use Rattle.words.specs.Laws.{WordsStand, OrderStands};
ghost use Rattle.words.specs.Stretches.{to_come, Found};

use std::cmp::Ordering;

// A word where it stands: its first byte, how many of its bytes count (at most 64), and where its stretch of bytes ends.
// It is offsets and no slice: tokens store where a word begins, and the laws of words say where each one stands.
#[derive(Clone, Copy, Debug, PartialEq, Eq)]
pub struct Word {
    pub start: usize,
    pub len: usize,
    pub end: usize,
}

impl Word {
    // The bytes of the word that count, where it stands in its text. Of a text that is too short, what is there.
    pub fn bytes<'a>(self, text: &'a [u8]) -> &'a [u8]
        ensures { result.now ≡ take self.len (drop self.start text.now) }
    {
        let start = self.start.min(text.len());
        let end = start + self.len.min(text.len() - start);
        &text[start..end]
    }
}

// Letters, digits and bytes from 128 up make words.
pub fn in_word(b: u8) -> bool
    ensures { result ≡ in_word b }
{
    b.is_ascii_alphanumeric() || b >= 128
}

// A capital letter made small; any other byte as it is. The body is the library's: the contract says it as the statements do, by `small`.
pub fn made_small(b: u8) -> u8
    ensures { result ≡ small b }
{
    b.to_ascii_lowercase()
}

// The next word from `at` on, or none if no byte that makes words is left. To go on, ask from the word's `end`.
pub fn word_from(text: &[u8], at: usize) -> Option<Word>
    ensures { MatchOption result (to_come text.now at ≡ []) (Found text.now at) }
{
    let rest = &text[at.min(text.len())..];
    let start = at + rest.iter().position(|b| in_word(*b)).unwrap_or(rest.len());
    if start >= text.len() {
        return None;
    }
    // The first byte makes words. The stretch goes on from the second one, to the first that makes none.
    let more = &text[start + 1..];
    let end = start + 1 + more.iter().position(|b| !in_word(*b)).unwrap_or(more.len());
    Some(Word {
        start,
        len: (end - start).min(64),
        end,
    })
}

// The words of a text, in order as they stand in it.
#[derive(Drop)]
pub struct Words<'a> {
    text: &'a [u8],
    at: usize,
}

impl<'a> Words<'a> {
    // All words of a text.
    pub fn new(text: &'a [u8]) -> Self
        ensures text { result.text.now ≡ text.now }
        ensures first { result.at ≡ 0 }
    {
        Words::from_offset(text, 0)
    }

    // The words from an offset on: a word that has begun before it is cut there.
    pub fn from_offset(text: &'a [u8], at: usize) -> Self
        ensures text { result.text.now ≡ text.now }
        ensures first { result.at ≡ at }
    {
        Words { text, at }
    }
}

impl<'a> Iterator for Words<'a> {
    ghost use Rattle.words.specs.Standing.{words_left};

    type Item = Word;

    ghost next_gives = { YieldsFirst words_left };

    ghost remaining = { item_count words_left };

    // The next word. What was to come is this word and what is to come after it, or nothing.
    fn next(&mut self) -> Option<Word>
        ensures steps { YieldsFirst words_left self.old result self.new }
        ensures goes { MakesProgress (λ _. ⊤) (item_count words_left) self.old result self.new }
        ensures text { self.new.text.now ≡ self.old.text.now }
        ensures word { MatchOption result (to_come self.old.text.now self.old.at ≡ []) (Found self.old.text.now self.old.at) }
        ensures next { MatchOption result (self.new.at ≡ self.old.at) (λ w. self.new.at ≡ w.end) }
    {
        let word = word_from(self.text, self.at)?;
        self.at = word.end;
        Some(word)
    }
}

// How many words a text has.
pub fn count(text: &[u8]) -> u64
    ensures { result ≡ length (words text.now) }
{
    Words::new(text).count() as u64
}

// Compares two keys, byte by byte as they are: the first byte that differs decides, and of two keys that agree as far as
// they go the shorter one is the earlier one. The body is the library's: the contract says it as the statements do, by `earlier`.
pub fn compare_keys(a: &[u8], b: &[u8]) -> Ordering
    ensures { Compared result a.now b.now }
{
    a.cmp(b)
}

// Compares a word where it stands in a text with a key: capitals of the word are made small. Both are cut to the shorter
// one, so that a single end is looked for at each byte; `Iterator::cmp` looks for two, and takes its answer apart there.
pub fn compare_to_key(word: &[u8], key: &[u8]) -> Ordering
    ensures { Compared result (each small word.now) key.now }
{
    let both = word.len().min(key.len());
    word[..both]
        .iter()
        .zip(key[..both].iter())
        .map(|(b, k)| made_small(*b).cmp(k))
        .find(|order| order.is_ne())
        .unwrap_or_else(|| word.len().cmp(&key.len()))
}

// Compares two words where they stand in a text, or in two.
pub fn compare_words(a: &[u8], b: &[u8]) -> Ordering
    ensures { Compared result (each small a.now) (each small b.now) }
{
    let both = a.len().min(b.len());
    a[..both]
        .iter()
        .zip(b[..both].iter())
        .map(|(x, y)| made_small(*x).cmp(&made_small(*y)))
        .find(|order| order.is_ne())
        .unwrap_or_else(|| a.len().cmp(&b.len()))
}

// The words of every text: cut at each byte that makes none, of 1 to 64 bytes, small, few enough for the text.
pub fn words_stand()
    ensures { WordsStand }
{}

// The order of words is a strict total order.
pub fn order_stands()
    ensures { OrderStands }
{}

#[cfg(test)]
mod tests {
    use super::*;

    #[test]
    fn nothing_has_no_words(rt: HostRuntime) {
        assert_eq!(rt; word_from(b"", 0), None);
        assert_eq!(rt; word_from(b" .,-", 0), None);
        assert_eq!(rt; count(b""), 0);
    }

    #[test]
    fn words_come_in_order(rt: HostRuntime) {
        let mut left = Words::new(b"- Two words");
        assert_eq!(rt;
            left.next(),
            Some(Word {
                start: 2,
                len: 3,
                end: 5,
            })
        );
        assert_eq!(rt;
            left.next(),
            Some(Word {
                start: 6,
                len: 5,
                end: 11,
            })
        );
        assert_eq!(rt; left.next(), None);
    }

    #[test]
    fn the_first_64_bytes_count(rt: HostRuntime) {
        let long = [b'a'; 65];
        assert_eq!(rt;
            word_from(&long[0..64], 0),
            Some(Word {
                start: 0,
                len: 64,
                end: 64,
            })
        );
        assert_eq!(rt;
            word_from(&long, 0),
            Some(Word {
                start: 0,
                len: 64,
                end: 65,
            })
        );
        assert_eq!(rt; count(&long), 1);
    }

    fn letter_at_even_places(text: &mut [u8]) {
        for b in text.iter_mut().step_by(2) {
            *b = b'a';
        }
    }

    #[test]
    fn every_second_byte_a_word(rt: HostRuntime) {
        let mut text = [b' '; 65535];
        letter_at_even_places(&mut text);
        assert_eq!(rt; count(&text), 32768);
    }

    #[test]
    fn high_bytes_do_not_cut(rt: HostRuntime) {
        assert_eq!(rt;
            word_from(b"\x7fa\x80\xffb/", 0),
            Some(Word {
                start: 1,
                len: 4,
                end: 5,
            })
        );
    }

    #[test]
    fn capitals_are_made_small(rt: HostRuntime) {
        assert_eq!(rt; compare_to_key(b"ZebRA", b"zebra"), Ordering::Equal);
        assert_eq!(rt; compare_to_key(b"zebra", b"ZEBRA"), Ordering::Greater);
        assert_eq!(rt; compare_words(b"Ant", b"ANTS"), Ordering::Less);
        assert_eq!(rt; compare_words(b"b", b"ANTS"), Ordering::Greater);
        assert_eq!(rt; compare_keys(b"\x80", b"z"), Ordering::Greater);
    }

    #[test]
    fn the_bytes_of_a_word(rt: HostRuntime) {
        let word = Word {
            start: 2,
            len: 3,
            end: 5,
        };
        assert_eq!(rt; word.bytes(b"- Two words"), b"Two".as_slice());
        assert_eq!(rt; word.bytes(b"- T"), b"T".as_slice());
        assert_eq!(rt; word.bytes(b""), b"".as_slice());
    }
}
