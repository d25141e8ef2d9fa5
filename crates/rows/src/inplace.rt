// Rows compared where they lie in memory, with no copy.
ghost use Rattle.std.specs.Prelude.{◌≡◌, None, MatchOption};
ghost use Rattle.rows.specs.Rows.{row_at};
ghost use Rattle.rows.specs.Orders.{Lies, StandsCompared};

use crate::page::rows_end;
use pages::hold_bytes;
use std::cmp::Ordering;

// The row at an offset, where it lies: the cells of its key, and the six behind them of its document and place. None if no row stands there.
fn lying_at(page: &[u64], at: usize) -> Option<(&[u64], &[u64])>
    ensures { MatchOption result (row_at page.now at ≡ None) (λ row. Lies page.now at row.0.now row.1.now) }
{
    let (len, rest) = page.get(at..rows_end(page))?.split_first()?;
    if *len > 64 {
        return None;
    }
    let len = *len as usize;
    let row = rest.get(..len + 6)?;
    if !hold_bytes(row) {
        return None;
    }
    Some(row.split_at(len))
}

// Compares two rows where they lie: by key, and at equal keys by the six bytes of document and place, the highest first.
// None if no row stands at one of the offsets.
pub fn compare_at(a: &[u64], at_a: usize, b: &[u64], at_b: usize) -> Option<Ordering>
    ensures { StandsCompared (row_at a.now at_a) (row_at b.now at_b) result }
{
    let (key, tail) = lying_at(a, at_a)?;
    let (other_key, other_tail) = lying_at(b, at_b)?;
    match key.cmp(other_key) {
        Ordering::Equal => Some(tail.cmp(other_tail)),
        order => Some(order),
    }
}
