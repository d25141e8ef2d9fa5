// Tokens sorted as rows.
ghost use Rattle.std.specs.Prelude.{◌≡◌, ℕ, ◌+◌, ◌≤◌, ◌&&◌, [], length, take, is_some, MatchOption, nat_le};
ghost use Rattle.pages.proofs.Sorted.{Different};
ghost use Rattle.rows.specs.Merging.{Rising, merge_rows};
ghost use Rattle.places.specs.Places.{sorted_rows};
ghost use Rattle.places.specs.Tokens.{rows_in, tokens_fit, Chosen, Placed};

use crate::token::Token;
use crate::tokens::index_words;
use documents::Texts;

// Takes the next token of two sorted runs, and says what is left of both: the first of the left one where there is one and none on the
// right is less, or else the first of the right one. None where both are empty.
fn take_first<'a>(
    texts: Texts<'_>,
    left: &'a [u64],
    right: &'a [u64],
) -> Option<(u64, &'a [u64], &'a [u64])>
    ensures { MatchOption result ((left.now ≡ []) × (right.now ≡ []))
        (λ t. Chosen texts.entry.title.now texts.entry.body.now left.now right.now t.0 t.1.now t.2.now) }
{
    let Some((first, rest)) = left.split_first() else {
        let (other, others) = right.split_first()?;
        return Some((*other, left, others));
    };
    let Some((other, others)) = right.split_first() else {
        return Some((*first, rest, right));
    };
    if Token::from(*first)
        .compare(Token::from(*other), texts)
        .is_gt()
    {
        Some((*other, left, others))
    } else {
        Some((*first, rest, right))
    }
}

// Merges two sorted runs of tokens into the front of `out`.
fn merge(texts: Texts<'_>, left: &[u64], right: &[u64], out: &mut [u64])
    requires room { length left.now + length right.now ≤ length out.old }
    requires left { (doc : ℕ) → Rising (rows_in doc texts left.now) }
    requires right { (doc : ℕ) → Rising (rows_in doc texts right.now) }
    ensures { (doc : ℕ) → rows_in doc texts.entry (take (length left.now + length right.now) out.new)
        ≡ merge_rows (rows_in doc texts.entry left.now) (rows_in doc texts.entry right.now) }
{
    let mut lefts = left;
    let mut rights = right;
    for cell in out.iter_mut() {
        let Some((next, from_left, from_right)) = take_first(texts, lefts, rights) else {
            return;
        };
        *cell = next;
        lefts = from_left;
        rights = from_right;
    }
}

// Sorts tokens as rows: each half is sorted, and the halves are merged into the scratch and copied back. So n tokens, in whatever order,
// take no more than n log n comparisons; a comparison, which looks both words up, is what sorting costs.
fn sort(texts: Texts<'_>, tokens: &mut [u64], scratch: &mut [u64])
    requires room { length tokens.old ≤ length scratch.old }
    requires different { (doc : ℕ) → Different (rows_in doc texts tokens.old) }
    ensures { (doc : ℕ) → rows_in doc texts.entry tokens.new ≡ sorted_rows (rows_in doc texts.entry tokens.old) }
{
    let n = tokens.len();
    if n < 2 {
        return;
    }
    let (left, right) = tokens.split_at_mut(n / 2);
    sort(texts, left, scratch);
    sort(texts, right, scratch);
    merge(texts, left, right, scratch);
    tokens.copy_from_slice(&scratch[..n]);
}

// Writes a token for each word of title and body, in the order of their rows, and says how many. The scratch is at least as long as
// the memory for the tokens, and holds anything afterwards. What does not fit is refused, and all is left as it was.
pub fn place_words(texts: Texts<'_>, tokens: &mut [u64], scratch: &mut [u64]) -> Option<usize>
    ensures fits { is_some result ≡ (nat_le (length tokens.old) (length scratch.old) && tokens_fit texts.entry.title.now texts.entry.body.now (length tokens.old)) }
    ensures placed { MatchOption result ((tokens.new ≡ tokens.old) × (scratch.new ≡ scratch.old))
        (λ n. Placed texts.entry.title.now texts.entry.body.now tokens.old n tokens.new) }
{
    if scratch.len() < tokens.len() {
        return None;
    }
    let n = index_words(texts, tokens)?;
    sort(texts, &mut tokens[..n], scratch);
    Some(n)
}
