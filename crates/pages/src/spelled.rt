// The parts of a head as the numbers that stand for them, on a page and in memory, and back.
ghost use Rattle.std.specs.Prelude.{◌≡◌, ◌+◌, ◌≤◌, length, slice_range};
ghost use Rattle.pages.specs.Head.{segment_numbers, root_numbers, head_numbers, segment_in, root_in, head_in};

use crate::roots::{Head, Root, Segment};

// A segment of its four numbers, in the order in which they stand on a page.
impl From<[u64; 4]> for Segment {
    ghost from_gives = { λ numbers segment. segment ≡ segment_in numbers 0 };

    fn from(numbers: [u64; 4]) -> Segment {
        let [start, rows, bytes, docs] = numbers;
        Segment {
            start,
            rows,
            bytes,
            docs,
        }
    }
}

// The four numbers of a segment.
impl From<Segment> for [u64; 4] {
    ghost from_gives = { λ segment numbers. numbers ≡ segment_numbers segment };

    fn from(segment: Segment) -> [u64; 4] {
        [segment.start, segment.rows, segment.bytes, segment.docs]
    }
}

// A root of its eighteen numbers: two of its own, then four of each segment.
impl From<[u64; 18]> for Root {
    ghost from_gives = { λ numbers root. root ≡ root_in numbers 0 };

    fn from(numbers: [u64; 18]) -> Root {
        Root {
            count: numbers[0],
            weight: numbers[1],
            first: Segment::from(part(&numbers, 2)),
            second: Segment::from(part(&numbers, 6)),
            third: Segment::from(part(&numbers, 10)),
            fourth: Segment::from(part(&numbers, 14)),
        }
    }
}

// The eighteen numbers of a root.
impl From<Root> for [u64; 18] {
    ghost from_gives = { λ root numbers. numbers ≡ root_numbers root };

    fn from(root: Root) -> [u64; 18] {
        let mut numbers = [0; 18];
        numbers[..2].copy_from_slice(&[root.count, root.weight]);
        numbers[2..6].copy_from_slice(&<[u64; 4]>::from(root.first));
        numbers[6..10].copy_from_slice(&<[u64; 4]>::from(root.second));
        numbers[10..14].copy_from_slice(&<[u64; 4]>::from(root.third));
        numbers[14..].copy_from_slice(&<[u64; 4]>::from(root.fourth));
        numbers
    }
}

// A head of its 21 numbers: three of its own, then those of its root.
impl From<[u64; 21]> for Head {
    ghost from_gives = { λ numbers head. head ≡ head_in numbers 0 };

    fn from(numbers: [u64; 21]) -> Head {
        Head {
            sequence: numbers[0],
            half: numbers[1],
            end: numbers[2],
            root: Root::from(part(&numbers, 3)),
        }
    }
}

// The 21 numbers of a head.
impl From<Head> for [u64; 21] {
    ghost from_gives = { λ head numbers. numbers ≡ head_numbers head };

    fn from(head: Head) -> [u64; 21] {
        let mut numbers = [0; 21];
        numbers[..3].copy_from_slice(&[head.sequence, head.half, head.end]);
        numbers[3..].copy_from_slice(&<[u64; 18]>::from(head.root));
        numbers
    }
}

// So many numbers from a place on, as many as the part that is made of them takes.
fn part<const N: usize>(numbers: &[u64], at: usize) -> [u64; N]
    requires { at + N ≤ length numbers.now }
    ensures { result ≡ slice_range numbers.now at (at + N) }
{
    <[u64; N]>::try_from(&numbers[at..at + N]).unwrap()
}
