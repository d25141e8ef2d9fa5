// Sorted rows on pages: a key, a document and a place; how they lie on a page, how they are compared, read and written.
#![tactic(auto)]

mod cursor;
mod inplace;
mod key;
mod laws;
mod page;
mod row;
mod search;

pub use cursor::Cursor;
pub use inplace::compare_at;
pub use key::Key;
pub use laws::{
    cursor_stands, merging_stands, order_stands, packing_stands, pages_stand, search_stands,
};
pub use page::{Stand, put_row, row_at, rows_end};
pub use row::Row;
pub use search::{Located, Search, locate};

#[cfg(test)]
mod tests {
    use super::*;
    use std::cmp::Ordering;
    use std::test::Fail;

    fn row(len: usize, first: u8, doc: u32) -> Result<Row, Fail> {
        let mut bytes = [b'k'; 64];
        bytes[0] = first;
        let Some(key) = bytes.get(..len).and_then(Key::new) else {
            return Err(Fail::new("no key"));
        };
        Ok(Row { key, doc, place: 7 })
    }

    // Six rows with keys of 64 bytes: 426 bytes, so that 76 are left.
    fn six_rows(page: &mut [u64]) -> Result<(), Fail> {
        for doc in 0..6 {
            put_row(page, &row(64, b'a', doc)?)?;
        }
        Ok(())
    }

    #[test]
    fn a_page_is_filled_to_the_last_byte(rt: HostRuntime) -> Result<(), Fail> {
        let mut page = [0; 512];
        six_rows(&mut page)?;
        assert!(rt; put_row(&mut page, &row(31, b'b', 6)?).is_ok());
        assert!(rt; put_row(&mut page, &row(32, b'c', 7)?).is_err());
        assert!(rt; put_row(&mut page, &row(31, b'c', 8)?).is_ok());
        assert!(rt; put_row(&mut page, &row(0, b'd', 9)?).is_err());
        assert_eq!(rt; rows_end(&page), 504);
        assert!(rt; row_at(&page, 504).is_none());
        Ok(())
    }

    #[test]
    fn the_last_row_is_read(rt: HostRuntime) -> Result<(), Fail> {
        let mut page = [0; 512];
        six_rows(&mut page)?;
        let Some(Stand { row: last, next }) = row_at(&page, 357) else {
            return Err(Fail::new("no row"));
        };
        assert_eq!(rt; next, 428);
        assert_eq!(rt; last.key.len(), 64);
        assert_eq!(rt; last.doc, 5);
        assert_eq!(rt; last.place, 7);
        assert_eq!(rt; last.compare(&row(64, b'a', 5)?), Ordering::Equal);
        assert_eq!(rt; last.compare(&row(63, b'a', 9)?), Ordering::Greater);
        Ok(())
    }

    fn size(row: Row) -> usize {
        row.size()
    }

    fn next(stand: Stand) -> usize {
        stand.next
    }

    #[test]
    fn a_row_is_handed_over_twice(rt: HostRuntime) -> Result<(), Fail> {
        let row = row(5, b'a', 1)?;
        assert_eq!(rt; size(row).saturating_add(size(row)), 24);
        let mut page = [0; 512];
        put_row(&mut page, &row)?;
        let Some(stand) = row_at(&page, 2) else {
            return Err(Fail::new("no row"));
        };
        assert_eq!(rt; next(stand).saturating_add(next(stand)), 28);
        Ok(())
    }

    #[test]
    fn any_bytes_make_a_key(rt: HostRuntime) -> Result<(), Fail> {
        let long = Row {
            key: Key::of_front(&[b'K'; 70]),
            doc: 1,
            place: 7,
        };
        assert_eq!(rt; long.size(), 71);
        let mut page = [0; 512];
        put_row(&mut page, &long)?;
        assert_eq!(rt; page[66], 75);
        assert_eq!(rt; page[67], 0);
        assert_eq!(rt; Key::of_front(b"Key").len(), 3);
        Ok(())
    }

    #[test]
    fn junk_is_read_without_harm(rt: HostRuntime) -> Result<(), Fail> {
        assert_eq!(rt; rows_end(&[u64::MAX; 512]), 0);
        assert_eq!(rt; rows_end(&[1]), 0);
        assert!(rt; row_at(&[u64::MAX; 512], 2).is_none());
        let mut page = [0; 512];
        assert!(rt; put_row(&mut page, &row(64, b'a', 1)?).is_ok());
        assert!(rt; row_at(&page, usize::MAX).is_none());
        page[3] = 256;
        assert!(rt; row_at(&page, 2).is_none());
        page[3] = 97;
        page[2] = 65;
        assert!(rt; row_at(&page, 2).is_none());
        Ok(())
    }
}
