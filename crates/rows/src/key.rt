// A key by value: at most 64 bytes, with no memory of its own.
ghost use Rattle.std.specs.Prelude.{◌≡◌, ◌-◌, ◌≤◌, ◌<◌, true, false, ◌==◌, ◌++◌, length, take, replicate, MatchOption};
ghost use Rattle.std.proofs.Common.{rules};
ghost use Rattle.std.specs.Cmp.{partial_order_from_own_ties};
ghost use Rattle.std.specs.Cmp.Lexicographic.{slice_cmp};
ghost use Rattle.std.specs.Cmp.Rules.{comparing};
ghost use Rattle.std.specs.Ordering.{nat_cmp, as_partial_cmp};
ghost use lib.Pointwise.{pointwise};
ghost use Rattle.pages.specs.Lists.{each};
ghost use Rattle.pages.specs.Bytes.{all_bytes};
ghost use Rattle.words.specs.Words.{small};

use pages::give_bytes;
use std::cmp::Ordering;
use std::marker::Model;

// The first `len` bytes are the key, and those after it are 0.
#[derive(Clone, Copy)]
pub struct Key {
    bytes: [u8; 64],
    len: usize,
}

// A key is the list of its bytes.
impl Model for Key {
    ghost use Rattle.std.specs.Prelude.{ℕ, List};

    ghost Value = { List ℕ };

    ghost use Rattle.rows.specs.Keys.{key_of, Padded, laid_out, laid_out_again};

    ghost view = { key_of };

    ghost invariant = { Padded };

    ghost inverse = { laid_out };

    ghost inverse_ok = { laid_out_again };
}

// The bytes, and zeros after them.
fn padded(bytes: &[u8]) -> [u8; 64]
    requires { length bytes.now ≤ 64 }
    ensures { result ≡ bytes.now ++ replicate (64 - length bytes.now) 0 }
{
    let mut padded = [0; 64];
    padded[..bytes.len()].copy_from_slice(bytes);
    padded
}

impl Key {
    // A key of these bytes; none if there are more than 64.
    pub fn new(bytes: &[u8]) -> Option<Key>
        ensures { MatchOption result (64 < length bytes.now) (λ k. (k ≡ bytes.now) × (length bytes.now ≤ 64)) }
    {
        if bytes.len() > 64 {
            return None;
        }
        Some(Key {
            bytes: padded(bytes),
            len: bytes.len(),
        })
    }

    // A key of the first 64 of these bytes, or of all where there are fewer.
    pub fn of_front(bytes: &[u8]) -> Key
        ensures { result ≡ take 64 bytes.now }
    {
        let front = &bytes[..bytes.len().min(64)];
        Key {
            bytes: padded(front),
            len: front.len(),
        }
    }

    // The key of a word: its first 64 bytes, with capitals made small.
    pub fn of_word(word: &[u8]) -> Key
        ensures { result ≡ each small (take 64 word.now) }
    {
        let front = &word[..word.len().min(64)];
        let mut bytes = padded(front);
        bytes[..front.len()].make_ascii_lowercase();
        Key {
            bytes,
            len: front.len(),
        }
    }

    // Cells as a key; none if one of them holds no byte.
    pub(crate) fn in_cells(cells: &[u64]) -> Option<Key>
        requires { length cells.now ≤ 64 }
        ensures { MatchOption result (all_bytes cells.now ≡ false) (λ k. (all_bytes cells.now ≡ true) × (k ≡ cells.now)) }
    {
        let mut bytes = [0; 64];
        give_bytes(cells, &mut bytes[..cells.len()]).ok()?;
        Some(Key {
            bytes,
            len: cells.len(),
        })
    }

    // The bytes of the key.
    pub fn as_slice(&self) -> &[u8]
        ensures bytes { result.now ≡ self.now }
        ensures short { length result.now ≤ 64 }
    {
        &self.bytes[..self.len]
    }

    // How many bytes the key has.
    pub fn len(&self) -> usize
        ensures len { result ≡ length self.now }
        ensures short { result ≤ 64 }
    {
        self.as_slice().len()
    }
}

// Keys are compared by their bytes alone: a derived order would go over the whole array, and its contract speak of the zeros.

impl PartialEq for Key {
    ghost eq = { pointwise ◌==◌ };

    ghost laws = { Prim.search (comparing, rules) };

    fn eq(&self, other: &Key) -> bool {
        self.as_slice() == other.as_slice()
    }
}

impl Eq for Key {
    ghost laws = { Prim.search (comparing, rules) };
}

impl PartialOrd for Key {
    ghost partial_cmp = { as_partial_cmp (slice_cmp nat_cmp) };

    ghost laws = { partial_order_from_own_ties (Prim.search (comparing, rules)) (Prim.search (comparing, rules)) };

    fn partial_cmp(&self, other: &Key) -> Option<Ordering> {
        Some(self.cmp(other))
    }
}

impl Ord for Key {
    ghost cmp = { slice_cmp nat_cmp };

    ghost total = { Prim.search (comparing, rules) };

    ghost matches_partial_cmp = { Prim.search (comparing, rules) };

    ghost matches_eq = { Prim.search (comparing, rules) };

    fn cmp(&self, other: &Key) -> Ordering {
        self.as_slice().cmp(other.as_slice())
    }
}
