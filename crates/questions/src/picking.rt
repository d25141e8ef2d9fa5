// Picking the best of hits that come as a row of numbers: how many, and for each a name and its points.
ghost use Rattle.std.specs.Prelude.{◌≡◌, ◌*◌, ◌≤◌, ◌++◌, length, take, drop};
ghost use Rattle.questions.specs.Order.{in_order};
ghost use Rattle.questions.specs.Best.{smaller, hits_of, hits_out, rising, refusal, BestSays};
ghost use Rattle.questions.specs.Rows.{Checked};

use crate::Refusal;
use crate::hits::{Hit, insert};

// The most hits that are taken at once.
const MOST_HITS: u64 = 65536;

// Whether each name is above the one before it.
fn names_rise(hits: &[[u64; 2]]) -> bool
    ensures { result ≡ rising (hits_of hits.now) }
{
    hits.is_sorted_by(|a, b| a[0] < b[0])
}

// The hits, each with its name and its points, or the refusal that applies.
fn checked<'a>(hits: &'a [u64], k: u64, out: &[u64]) -> Result<&'a [[u64; 2]], Refusal>
    ensures { Checked hits.now out.now k result }
{
    let (count, rest) = hits.split_first().ok_or(Refusal::CutShort)?;
    let (pairs, _) = rest.as_chunks::<2>();
    if *count > MOST_HITS.min(pairs.len() as u64) {
        return Err(Refusal::CutShort);
    }
    let counted = &pairs[..*count as usize];
    if !names_rise(counted) {
        return Err(Refusal::NotRising);
    }
    if k.min(*count) > out.len() as u64 / 2 {
        return Err(Refusal::NoRoom);
    }
    Ok(counted)
}

// Leaves in the lent row the best `most` of the hits. It goes from the last to the first, as the order is defined.
fn keep_best(hits: &[[u64; 2]], most: u64, out: &mut [u64])
    requires { 2 * most ≤ length out.old }
    ensures { out.new ≡ hits_out (take most (in_order (hits_of hits.now))) ++ drop (2 * smaller most (length hits.now)) out.old }
{
    let mut held = 0;
    for pair in hits.iter().rev() {
        held = insert(out, held, most, Hit::from(*pair)).count;
    }
}

// The best k of the hits into the lent row, the best first, or all of them if there are fewer.
pub fn best(hits: &[u64], k: u64, out: &mut [u64]) -> Result<u64, Refusal>
    ensures { BestSays hits.now out.old k (refusal hits.now out.old k) result out.new }
{
    let counted = checked(hits, k, out)?;
    let most = k.min(counted.len() as u64);
    keep_best(counted, most, out);
    Ok(most)
}

#[cfg(test)]
mod tests {
    use super::*;

    // Names 2, 5, 7 and 9; two of them have as many points.
    const HITS: [u64; 9] = [4, 2, 10, 5, 30, 7, 30, 9, 20];

    #[test]
    fn the_best_first_and_the_rest_left(rt: HostRuntime) {
        let mut out = [1; 8];
        assert!(rt; best(&HITS, 3, &mut out) == Ok(3));
        assert!(rt; out == [5, 30, 7, 30, 9, 20, 1, 1]);
    }

    #[test]
    fn none_and_all(rt: HostRuntime) {
        let mut out = [1; 9];
        assert!(rt; best(&HITS, 0, &mut out) == Ok(0));
        assert!(rt; out == [1; 9]);
        assert!(rt; best(&HITS, 1000, &mut out) == Ok(4));
        assert!(rt; out == [5, 30, 7, 30, 9, 20, 2, 10, 1]);
    }

    #[test]
    fn refusals_leave_the_row(rt: HostRuntime) {
        let mut out = [1; 5];
        assert_eq!(rt; best(&[], 1, &mut out).map_err(u64::from), Err(1));
        assert_eq!(rt; best(&[2, 1, 5, 3], 1, &mut out).map_err(u64::from), Err(1));
        assert_eq!(rt;
            best(&[2, 3, 5, 3, 6], 1, &mut out).map_err(u64::from),
            Err(2)
        );
        assert_eq!(rt; best(&HITS, 3, &mut out).map_err(u64::from), Err(3));
        assert!(rt; out == [1; 5]);
    }

    #[test]
    fn refusals_have_their_numbers(rt: HostRuntime) {
        assert_eq!(rt; u64::from(Refusal::CutShort), 1);
        assert_eq!(rt; u64::from(Refusal::NotRising), 2);
        assert_eq!(rt; u64::from(Refusal::NoRoom), 3);
    }
}
