// The search for the first row whose key is not earlier than a key: one step over the pages, and one along a page.
ghost use Rattle.std.specs.Prelude.{◌≡◌, ◌<◌, ◌≤◌};
ghost use Rattle.rows.specs.Searching.{middle, narrowed, located, ended, reached};

use crate::cursor::Cursor;
use crate::page::{Stand, row_at, rows_end};
use std::ops::ControlFlow;

// The pages in question: from `lo` to before `hi`. The halving stands here and is no `binary_search` of the library's, since no step has all the pages: each one
// that is looked at comes with a step of its own.
#[derive(Clone, Copy)]
pub struct Search {
    pub lo: u64,
    pub hi: u64,
}

impl Search {
    // The page in the middle.
    pub fn mid(self) -> u64
        ensures { result ≡ middle self }
    {
        self.lo.midpoint(self.hi)
    }

    // One step: the first row of the page in the middle decides which half is left. If no page is in question, none is after.
    pub fn narrow(self, page: &[u64], key: &[u8]) -> Search
        ensures { result ≡ narrowed key.now page.now self }
    {
        if self.lo >= self.hi {
            return self;
        }
        let mid = self.mid();
        match row_at(page, 2) {
            Some(first) if first.row.compare_key(key).is_lt() => Search {
                lo: mid + 1,
                ..self
            },
            _ => Search { hi: mid, ..self },
        }
    }
}

// Where one step along a page came to: the search goes on there, or it broke off there.
pub type Located = ControlFlow<Cursor, Cursor>;

// One step along a page: past a row whose key is earlier. It ends at a row whose key is not, or with the page. If no page has
// a higher number than the cursor's, the cursor stays on its page.
pub fn locate(cursor: Cursor, page: &[u64], key: &[u8]) -> Located
    ensures counted { cursor.page < 18446744073709551615 → result ≡ located key.now page.now cursor }
    ensures ended { ended result ≡ ended (located key.now page.now cursor) }
    ensures last { 18446744073709551615 ≤ cursor.page → (reached result).page ≡ cursor.page }
{
    match row_at(page, cursor.at) {
        Some(Stand { row, next }) if row.compare_key(key).is_lt() => {
            let past = cursor.past(page, next);
            if next < rows_end(page) {
                ControlFlow::Continue(past)
            } else {
                ControlFlow::Break(past)
            }
        }
        _ => ControlFlow::Break(cursor),
    }
}
