// A hit is a document, by its name, with its points. The best so far stand in a lent row of numbers, the best first, two numbers for each: the name,
// then the points.
ghost use Rattle.std.specs.Prelude.{◌≡◌, ◌+◌, ◌-◌, ◌*◌, ◌^◌, ◌<◌, ◌≤◌, min, true, length};
ghost use Rattle.questions.specs.Order.{better};
ghost use Rattle.questions.specs.Best.{hit_of};
ghost use Rattle.questions.specs.Rows.{as_hit, has_room, GoesAmong, moved, Inserted, PutSays};

use std::cmp::Ordering;

// A document, by its name, and the points that it has.
#[derive(Clone, Copy, Debug, PartialEq, Eq)]
pub struct Hit {
    pub doc: u64,
    pub points: u64,
}

impl Hit {
    // More points, or as many and the lower name. A derived order would take the name first, and the higher one.
    pub fn is_better(self, other: Hit) -> bool
        ensures { result ≡ better (as_hit self) (as_hit other) }
    {
        match self.points.cmp(&other.points) {
            Ordering::Greater => true,
            Ordering::Equal => self.doc < other.doc,
            Ordering::Less => false,
        }
    }

    // The same document with so many points more; where the sum does not fit, with the most that do.
    pub fn plus(self, points: u64) -> Hit
        ensures { (result.doc ≡ self.doc) × (result.points ≡ min (self.points + points) (2 ^ 64 - 1)) }
    {
        Hit {
            doc: self.doc,
            points: self.points.saturating_add(points),
        }
    }
}

// The name, then the points.
impl From<[u64; 2]> for Hit {
    ghost from_gives = { λ pair hit. as_hit hit ≡ hit_of pair };

    fn from(pair: [u64; 2]) -> Hit {
        let [doc, points] = pair;
        Hit { doc, points }
    }
}

// What came of putting a hit into a row.
#[derive(Clone, Copy, Debug, PartialEq, Eq)]
pub struct Placed {
    // How many hits the row holds now.
    pub count: u64,
    // How many of the hits that it held stand before the new one: all of them if a full row turned it away.
    pub at: u64,
    // How many comparisons that took.
    pub compared: u64,
}

// Where a hit goes, and how many comparisons it took to say so: what `Placed` tells but its count, which stands only when the hit is in the row.
#[derive(Clone, Copy)]
struct Place {
    at: u64,
    compared: u64,
}

// Where the hit goes among those held. It halves what is left: the new hit is not better than the one before `low`, and better than the one at `high`.
// The library's search says neither how many comparisons it makes nor where it ends in a row that is not in order, so this one is written out.
fn search(held: &[[u64; 2]], hit: Hit) -> Place
    ensures { GoesAmong held.now (as_hit hit) result.at × (2 ^ result.compared ≤ 2 * length held.now + 1) × (result.compared ≤ length held.now) }
{
    let mut low = 0;
    let mut high = held.len();
    let mut compared = 0;
    while low < high {
        let middle = low + (high - low) / 2;
        if hit.is_better(Hit::from(held[middle])) {
            high = middle;
        } else {
            low = middle + 1;
        }
        compared += 1;
    }
    Place {
        at: low as u64,
        compared,
    }
}

// Where the hit goes among those held, which may be as many as there may be. Most hits are worse than the last of a full row, so that one is compared
// first, and they are turned away after one comparison.
fn find_place(held: &[[u64; 2]], most: u64, hit: Hit) -> Place
    ensures { GoesAmong held.now (as_hit hit) result.at × (2 ^ result.compared ≤ 4 * length held.now + 1) }
{
    let count = held.len() as u64;
    if count < most {
        return search(held, hit);
    }
    let Some((last, others)) = held.split_last() else {
        return Place { at: 0, compared: 0 };
    };
    if !hit.is_better(Hit::from(*last)) {
        return Place {
            at: count,
            compared: 1,
        };
    }
    let place = search(others, hit);
    Place {
        at: place.at,
        compared: place.compared + 1,
    }
}

// Moves the hits from `at` up to `last` one place down, over the one at `last`, and writes the new one at `at`.
fn make_room(row: &mut [u64], at: u64, last: u64, hit: Hit)
    requires { (at ≤ last) × (2 * last + 2 ≤ length row.old) }
    ensures { row.new ≡ moved row.old at last (as_hit hit) }
{
    let first = 2 * at as usize;
    row.copy_within(first..2 * last as usize, first + 2);
    row[first] = hit.doc;
    row[first + 1] = hit.points;
}

// Puts the hit in its place in a row with room for `most`; the last falls out if that is one too many.
pub(crate) fn insert(row: &mut [u64], count: u64, most: u64, hit: Hit) -> Placed
    requires { has_room row.old count most ≡ true }
    ensures { Inserted row.old count most (as_hit hit) result row.new }
{
    let (hits, _) = row.as_chunks::<2>();
    let place = find_place(&hits[..count as usize], most, hit);
    if place.at < most {
        make_room(row, place.at, count.min(most - 1), hit);
    }
    Placed {
        count: most.min(count + 1),
        at: place.at,
        compared: place.compared,
    }
}

// Puts the hit in its place among the best `most`, of which the row holds `count`, the best first. A row too short for so many, or a count above it, is
// refused, and all stays as it is. The row is lent, and its count is the caller's from one hit to the next: both are numbers that the statements speak of,
// so they stand beside the row, here and in `insert`, and in no type that would have to be made of the three and taken apart again for each hit.
pub fn put_in(row: &mut [u64], count: u64, most: u64, hit: Hit) -> Option<Placed>
    ensures { PutSays row.old count most (as_hit hit) result row.new }
{
    if count > most || most > row.len() as u64 / 2 {
        return None;
    }
    Some(insert(row, count, most, hit))
}

#[cfg(test)]
mod tests {
    use super::*;

    #[test]
    fn turned_away_refused_and_put_in(rt: HostRuntime) {
        let mut row = [5, 30, 7, 20, 1];
        let hit = Hit { doc: 9, points: 15 };
        let turned_away = Placed {
            count: 2,
            at: 2,
            compared: 1,
        };
        assert_eq!(rt; put_in(&mut row, 2, 2, hit.plus(5)), Some(turned_away));
        assert_eq!(rt; put_in(&mut row, 3, 2, hit), None);
        assert_eq!(rt; put_in(&mut row, 2, 3, hit), None);
        assert!(rt; row == [5, 30, 7, 20, 1]);
        let second = Placed {
            count: 2,
            at: 1,
            compared: 2,
        };
        assert_eq!(rt; put_in(&mut row, 2, 2, hit.plus(6)), Some(second));
        assert!(rt; row == [5, 30, 9, 21, 1]);
    }
}
