// A row by value: its key, the document and the place.
ghost use Rattle.std.specs.Prelude.{◌≡◌, ◌≤◌};
ghost use Rattle.words.specs.Compared.{Compared};
ghost use Rattle.rows.specs.Rows.{row_size};
ghost use Rattle.rows.specs.Orders.{RowsCompared};

use crate::key::Key;
use std::cmp::Ordering;
use std::marker::Model;

// `doc` is the document's first page, counted from the segment's first document page, and `place` the place in the
// document. Rows are ordered by key, then by document, then by place.
#[derive(Clone, Copy, PartialEq, Eq, PartialOrd, Ord)]
pub struct Row {
    pub key: Key,
    pub doc: u32,
    pub place: u16,
}

// A row is the row of the statements.
impl Model for Row {
    ghost use Rattle.rows.specs.Rows.{Row};

    ghost Value = { Row };

    ghost view = { λ row. record { key = row.key; doc = row.doc; place = row.place } };

    ghost inverse = { λ row. record { key = row.key; doc = row.doc; place = row.place } };
}

impl Row {
    // How many bytes the row takes on a page.
    pub fn size(&self) -> usize
        ensures size { result ≡ row_size self.now }
        ensures small { (7 ≤ result) × (result ≤ 71) }
    {
        7 + self.key.len()
    }

    // Compares the row's key with another key.
    pub fn compare_key(&self, key: &[u8]) -> Ordering
        ensures { Compared result self.now.key key.now }
    {
        self.key.as_slice().cmp(key)
    }

    // Compares two rows: by key, then by document, then by place. It is `cmp`; its contract says what the answer means in the words of the order of rows.
    pub fn compare(&self, other: &Row) -> Ordering
        ensures { RowsCompared result self.now other.now }
    {
        self.cmp(other)
    }
}
