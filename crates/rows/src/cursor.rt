// A cursor on the row pages of a segment.
ghost use Rattle.std.specs.Prelude.{◌≡◌, ◌<◌, ◌≤◌, nat_lt};
ghost use Rattle.pages.specs.Lists.{pick};
ghost use Rattle.rows.specs.Rows.{rows_end};
ghost use Rattle.rows.specs.Cursors.{passed};

use crate::page::rows_end;

// A page, counted from the first one of the rows, and an offset on it.
#[derive(Clone, Copy)]
pub struct Cursor {
    pub page: u64,
    pub at: usize,
}

impl Cursor {
    // The cursor past a row of the page under it: at the next offset, or at the start of the next page where the rows of
    // this one end. If no page has a higher number, it stays.
    pub fn past(self, page: &[u64], next: usize) -> Cursor
        ensures counted { self.page < 18446744073709551615 → result ≡ passed page.now self next }
        ensures last { 18446744073709551615 ≤ self.page → result ≡ pick (nat_lt next (rows_end page.now)) (record { page = self.page; at = next }) self }
    {
        if next < rows_end(page) {
            return Cursor { at: next, ..self };
        }
        match self.page.checked_add(1) {
            Some(page) => Cursor { page, at: 2 },
            None => self,
        }
    }
}
