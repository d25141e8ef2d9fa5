// The tokens of a document, as its words stand in title and body.
ghost use Rattle.std.specs.Prelude.{◌≡◌, ◌+◌, ◌≤◌, length, is_some, MatchOption};
ghost use Rattle.words.specs.Words.{words};
ghost use Rattle.places.specs.Tokens.{Added, tokens_fit, Indexed};

use crate::token::Token;
use documents::Texts;
use words::{Words, count};

// Writes a token for each word of a text, with places from `base` on, into memory that they fill.
fn add_words(text: &[u8], base: usize, tokens: &mut [u64])
    requires short { length text.now ≤ 65535 }
    requires places { base + length (words text.now) ≤ 65536 }
    requires room { length tokens.old ≡ length (words text.now) }
    ensures { Added text.now base tokens.new }
{
    // The cell is named by the number of its word: of what is written through `iter_mut().zip(..)` a proof knows the length alone.
    for (i, word) in Words::new(text).enumerate() {
        tokens[i] = Token::new(word.start, (base + i) as u16).into();
    }
}

// Writes a token for each word of title and body, as they stand there, and says how many. Texts that are too long and memory that
// is too short are refused, and nothing is written then.
pub fn index_words(texts: Texts<'_>, tokens: &mut [u64]) -> Option<usize>
    ensures fits { is_some result ≡ tokens_fit texts.entry.title.now texts.entry.body.now (length tokens.old) }
    ensures made { MatchOption result (tokens.new ≡ tokens.old) (λ n. Indexed texts.entry.title.now texts.entry.body.now tokens.old n tokens.new) }
{
    if texts.title.len() > 65535 || texts.body.len() > 65535 {
        return None;
    }
    let n = count(texts.title) as usize;
    let m = count(texts.body) as usize;
    if n + m > tokens.len() {
        return None;
    }
    let (title, rest) = tokens.split_at_mut(n);
    add_words(texts.title, 0, title);
    add_words(texts.body, 32768, &mut rest[..m]);
    Some(n + m)
}
