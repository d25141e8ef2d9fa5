// How much work it is to keep the best 1,000 of 65,536 hits: comparisons and moves, where the hits come in a good, a mixed and a bad order.
#![tactic(auto)]

use questions::hits::{Hit, put_in};
use std::alloc::{AllocError, Global};
use std::iter;

// So many hits come, the most that `best` takes at once.
const HITS: u64 = 65536;

// So many of them are kept.
const KEPT: u64 = 1000;

// What was done for all hits together.
#[derive(Clone, Copy)]
struct Work {
    compared: u64,
    moved: u64,
}

// Puts the hits into the row one by one, from the last to the first, and adds up the work. A hit's name tells its points.
fn put_all<F: Fn(u64) -> u64>(row: &mut [u64], points: F) -> Work
    requires { F.IsAlwaysCallable points }
{
    let mut work = Work {
        compared: 0,
        moved: 0,
    };
    let mut count = 0;
    for name in (0..HITS).rev() {
        let hit = Hit {
            doc: name,
            points: points(name),
        };
        if let Some(placed) = put_in(row, count, KEPT, hit) {
            count = placed.count;
            work.compared = work.compared.saturating_add(placed.compared);
            work.moved = work
                .moved
                .saturating_add(placed.count.saturating_sub(placed.at.saturating_add(1)));
        }
    }
    work
}

// The same hits as a row for `best`.
fn all_hits<F: Fn(u64) -> u64>(heap: Global, points: F) -> Result<Vec<u64>, AllocError>
    requires { F.IsAlwaysCallable points }
{
    iter::once(HITS)
        .chain((0..HITS).flat_map(|name| [name, points(name)]))
        .collect(heap)
}

// Prints what keeping the best of the hits took, one by one, and whether `best` leaves the same row.
fn report<F: Fn(u64) -> u64>(rt: &HostRuntime, name: &str, points: F) -> anyhow::Result<()>
    requires { F.IsAlwaysCallable points }
{
    let mut row = vec![in rt.alloc(); 0; 2 * KEPT as usize]?;
    let Work { compared, moved } = put_all(&mut row, &points);
    println!(rt; "{name}: {compared} comparisons, {moved} moves")?;
    let hits = all_hits(rt.alloc(), &points)?;
    let mut out = vec![in rt.alloc(); 0; 2 * KEPT as usize]?;
    let told = questions::best(&hits, KEPT, &mut out)?;
    let same = row == out;
    println!(rt; "{name}: best tells {told}, the same as the row: {same}")?;
    Ok(())
}

// The points come in three orders, seen from the last hit to the first, as the picking goes: each worse than all before it, so that a full row turns it
// away; in no order; and each better than all before it, so that all are moved.
fn main(rt: HostRuntime) -> anyhow::Result<()> {
    println!(rt; "{HITS} hits, the best {KEPT} kept")?;
    report(&rt, "good order", |name| name)?;
    report(&rt, "mixed order", |name| name.wrapping_mul(40503) % HITS)?;
    report(&rt, "bad order", |name| HITS.saturating_sub(name))
}
