// The head of a device: which root stands. Pages 0 and 1 are head pages, which are written in turn, each with two copies of its head, so that a write
// that a stop tore is seen and the other head counts.
ghost use Rattle.std.specs.Prelude.{◌≡◌, length, ◌==◌, is_ok};
ghost use Rattle.pages.specs.Lists.{pick};
ghost use Rattle.pages.specs.Places.{in_eights};
ghost use Rattle.pages.specs.Head.{head_numbers, head_page, head_at, copies_agree, read_head, chosen, HeadsKept};
ghost use Rattle.pages.specs.Commit.{CommitAtomic};

use crate::misfit::Misfit;
use crate::numbers::number_at;
use std::array;

// Rows and documents that stand together: the page they start on, how many pages the rows take and how many bytes, and how many pages the documents take.
#[derive(Clone, Copy, Default)]
pub struct Segment {
    pub start: u64,
    pub rows: u64,
    pub bytes: u64,
    pub docs: u64,
}

// What is kept: how many documents there are and how long they are together, and the segments that have them. The segments are four fields, since a
// definition reads an array as a list of any length, and a root would then be one only under a premise.
#[derive(Clone, Copy, Default)]
pub struct Root {
    pub count: u64,
    pub weight: u64,
    pub first: Segment,
    pub second: Segment,
    pub third: Segment,
    pub fourth: Segment,
}

// A root with its place in the sequence of commits, and which half of the device is in use up to where. The half is a number and no enum: a page may
// hold any number there, and a head is read as it is.
#[derive(Clone, Copy, Default)]
pub struct Head {
    pub sequence: u64,
    pub half: u64,
    pub end: u64,
    pub root: Root,
}

// A head, and the number of the page that it stands on: 0 or 1 for the head that counts. Any other number is no head page, so whoever has found no head
// yet may put one there.
#[derive(Clone, Copy)]
pub struct Standing {
    pub page: u64,
    pub head: Head,
}

// The head on a page; none if its two copies differ, or if these are not the 512 bytes of a page.
pub fn read_head(page: &[u8]) -> Option<Head>
    ensures { result ≡ read_head page.now }
{
    let page: &[u8; 512] = page.as_array()?;
    if !same_copies(page) {
        return None;
    }
    Some(read_copy(page))
}

// Makes the bytes the page of a head; where they are not the 512 of a page, it refuses and leaves them.
pub fn write_head(head: Head, page: &mut [u8]) -> Result<(), Misfit>
    ensures fits { is_ok result ≡ (length page.old == 512) }
    ensures page { page.new ≡ pick (is_ok result) (head_page head) page.old }
{
    if page.len() != 512 {
        return Err(Misfit);
    }
    let copy = copy_of(head);
    page.fill(0);
    page[..168].copy_from_slice(&copy);
    page[256..424].copy_from_slice(&copy);
    Ok(())
}

// Which of the heads of page 0 and page 1 counts: the one with the higher sequence, and page 0's if they are equal.
pub fn choose(first: Option<Head>, second: Option<Head>) -> Option<Standing>
    ensures { result ≡ chosen first second }
{
    match (first, second) {
        (None, None) => None,
        (Some(head), None) => Some(Standing { page: 0, head }),
        (None, Some(head)) => Some(Standing { page: 1, head }),
        (Some(a), Some(b)) => Some(if a.sequence < b.sequence {
            Standing { page: 1, head: b }
        } else {
            Standing { page: 0, head: a }
        }),
    }
}

// What was written is read, of a torn write nothing is, and a blank page is the empty head. A theorem; there is nothing to compute.
#[tactic(auto, using(crate::proofs::Heads::heads_kept))]
pub fn heads_are_kept()
    ensures { HeadsKept }
{}

// The next head is written to the head page that is not in use: whatever a stop leaves of it, the old head or the new one counts. A theorem.
#[tactic(auto, using(crate::proofs::Commit::commit_is_atomic))]
pub fn commit_is_atomic()
    ensures { CommitAtomic }
{}

// Whether the 168 bytes of the head and their copy in the second half of the page are the same.
fn same_copies(page: &[u8; 512]) -> bool
    ensures { result ≡ copies_agree page.now }
{
    page[0..168] == page[256..424]
}

// The head whose numbers stand at the front of a page.
fn read_copy(page: &[u8; 512]) -> Head
    ensures { result ≡ head_at page.now 0 }
{
    Head::from(array::from_fn(|i| number_at(page, 8 * i)))
}

// The numbers of a head, each in eight bytes.
fn copy_of(head: Head) -> [u8; 168]
    ensures { result ≡ in_eights (head_numbers head) }
{
    let numbers: [u64; 21] = head.into();
    let spelled = numbers.map(u64::to_be_bytes);
    let mut copy = [0; 168];
    copy.copy_from_slice(spelled.as_flattened());
    copy
}

#[cfg(test)]
mod tests {
    use super::*;
    use std::process::Abort;
    use std::test::Fail;

    const SEQUENCES: [u64; 5] = [0, 1, 2, 256, u64::MAX];

    fn head_of(sequence: u64) -> Head {
        let segment = Segment {
            start: 2,
            rows: 3,
            bytes: 1400,
            docs: 1,
        };
        let empty = Segment::default();
        Head {
            sequence,
            half: 0,
            end: 6,
            root: Root {
                count: 7,
                weight: 90,
                first: segment,
                second: empty,
                third: empty,
                fourth: empty,
            },
        }
    }

    fn keep_second_half(new: &mut [u8], old: &[u8]) {
        if new.len() == 512 && old.len() == 512 {
            new[256..512].copy_from_slice(&old[256..512]);
        }
    }

    // Whether a head is read where the first half of a new page came onto an old one.
    fn torn_is_read(old: u64, new: u64) -> bool {
        let mut page = [0; 512];
        let mut torn = [0; 512];
        let _ = write_head(head_of(old), &mut page);
        let _ = write_head(head_of(new), &mut torn);
        keep_second_half(&mut torn, &page);
        read_head(&torn).is_some()
    }

    fn torn_over(rt: &impl Abort, old: u64) {
        for new in SEQUENCES {
            assert_eq!(rt; torn_is_read(old, new), old == new);
        }
    }

    #[test]
    fn torn(rt: HostRuntime) {
        for old in SEQUENCES {
            torn_over(&rt, old);
        }
    }

    #[test]
    fn blank(rt: HostRuntime) -> Result<(), Fail> {
        let head = read_head(&[0; 512]).ok_or("no head")?;
        assert_eq!(rt; head.sequence, 0);
        assert_eq!(rt; head.root.count, 0);
        assert!(rt; read_head(&[0; 511]).is_none());
        assert!(rt; write_head(head, &mut [0; 511]).is_err());
        Ok(())
    }
}
