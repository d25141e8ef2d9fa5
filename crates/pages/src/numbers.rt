// Numbers in eight bytes, the highest first.
ghost use Rattle.std.specs.Prelude.{◌≡◌, ◌+◌, true, length, take, nat_le, is_ok};
ghost use Rattle.pages.specs.Lists.{pick};
ghost use Rattle.pages.specs.Bytes.{all_bytes, eight, from_eight};
ghost use Rattle.pages.specs.Places.{number_at, written};

use crate::misfit::Misfit;

// The number that the first eight bytes spell, the highest first; where there are fewer, the number that these spell.
pub fn number(bytes: &[u8]) -> u64
    ensures { result ≡ from_eight 0 (take 8 bytes.now) }
{
    let first = &bytes[..bytes.len().min(8)];
    let mut n = 0;
    for byte in first {
        n = 256 * n + u64::from(*byte);
    }
    n
}

// The number that the eight bytes at a place spell; past the end there is none, and it is 0. A `match`: with `map_or(0, number)` it stays open what the
// result is.
pub fn number_at(bytes: &[u8], at: usize) -> u64
    ensures { result ≡ number_at bytes.now at }
{
    match bytes.get(at..) {
        Some(rest) => number(rest),
        None => 0,
    }
}

// Writes a number into the eight bytes at a place; where they do not fit, it refuses and leaves all as it was.
pub fn put_number(out: &mut [u8], at: usize, n: u64) -> Result<(), Misfit>
    ensures fits { is_ok result ≡ nat_le (at + 8) (length out.old) }
    ensures out { out.new ≡ pick (is_ok result) (written out.old at (eight n)) out.old }
{
    if out.len() < 8 || out.len() - 8 < at {
        return Err(Misfit);
    }
    out[at..at + 8].copy_from_slice(&n.to_be_bytes());
    Ok(())
}

// Whether each element is below 256. It always is, as the type says of each: there is nothing to look at, and a caller learns here of the whole slice what
// a proof may need.
pub fn are_bytes(bytes: &[u8]) -> bool
    ensures bytes { result ≡ all_bytes bytes.now }
    ensures always { all_bytes bytes.now ≡ true }
{
    true
}
