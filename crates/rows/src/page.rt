// Rows on a page. A page lies in memory one byte to a cell, and a cell may hold any number.
ghost use Rattle.std.specs.Prelude.{◌≡◌, ℕ, ◌≤◌, Bool, true, false, ◌&&◌, ◌==◌, nat_le, length, take, is_ok, MatchOption};
ghost use Rattle.pages.specs.Lists.{pick};
ghost use Rattle.pages.specs.Bytes.{all_bytes};
ghost use Rattle.rows.specs.Rows.{row_size, row_bytes, used, rows_end, row_in, row_at, room_for, with_row};

use crate::key::Key;
use crate::row::Row;
use pages::{Misfit, bytes_in, take_bytes};
use std::marker::Model;

// What stands at an offset of a page: a row, and where the next one begins.
#[derive(Clone, Copy)]
pub struct Stand {
    pub row: Row,
    pub next: usize,
}

// What stands there is that of the statements.
impl Model for Stand {
    ghost use Rattle.rows.specs.Rows.{Stand};

    ghost Value = { Stand };

    ghost view = { λ stand. record { row = stand.row; next = stand.next } };

    ghost inverse = { λ stand. record { row = stand.row; next = stand.next } };
}

// How many bytes of rows follow, as the first two cells of a page say; none if there are fewer than two, or one of them holds no byte.
fn used(page: &[u64]) -> Option<usize>
    ensures { MatchOption result ((nat_le 2 (length page.now) && all_bytes (take 2 page.now)) ≡ false) (λ n. ((nat_le 2 (length page.now) && all_bytes (take 2 page.now)) ≡ true) × (n ≡ used page.now)) }
{
    let bytes: [u8; 2] = bytes_in(page.get(..2)?)?;
    Some(usize::from(u16::from_be_bytes(bytes)))
}

// Where the rows of a page end: two bytes say how many bytes of rows follow. 0 if they say nothing that a page has room for,
// so that every offset lies past the end there. A number and no Option: whoever asks has an offset to compare with it, and is never refused.
pub fn rows_end(page: &[u64]) -> usize
    ensures end { result ≡ rows_end page.now }
    ensures within { (result ≤ 504) × (result ≤ length page.now) }
{
    match used(page) {
        Some(used) if used <= 502 && used + 2 <= page.len() => used + 2,
        _ => 0,
    }
}

// The row that the cells begin with, if they begin with one. The parts are named by their offsets, as `put_bytes` writes them; cut off one after the
// other, each would need a name for the rest as well.
fn row_in(cells: &[u64]) -> Option<Row>
    ensures { result ≡ row_in cells.now }
{
    if cells.len() < 7 || cells[0] > 64 {
        return None;
    }
    let len = cells[0] as usize;
    if len + 7 > cells.len() {
        return None;
    }
    let key = Key::in_cells(&cells[1..len + 1])?;
    let doc = bytes_in(&cells[len + 1..len + 5])?;
    let place = bytes_in(&cells[len + 5..len + 7])?;
    Some(Row {
        key,
        doc: u32::from_be_bytes(doc),
        place: u16::from_be_bytes(place),
    })
}

// The row at an offset of a page, and the offset of the next one. Nothing is asked of the page: where no row stands,
// since the rows end there, it is cut short, its key is too long or a cell holds no byte, there is none.
pub fn row_at(page: &[u64], at: usize) -> Option<Stand>
    ensures { result ≡ row_at page.now at }
{
    let row = row_in(page.get(at..rows_end(page))?)?;
    Some(Stand {
        row,
        next: at + row.size(),
    })
}

// Writes the bytes of a row into as many cells. Each part is as long as the cells that are lent for it, so none is refused.
fn put_bytes(cells: &mut [u64], row: &Row)
    requires { length cells.old ≡ row_size row.now }
    ensures { cells.new ≡ row_bytes row.now }
{
    let len = row.key.len();
    cells[0] = len as u64;
    let _ = take_bytes(&mut cells[1..len + 1], row.key.as_slice());
    let _ = take_bytes(&mut cells[len + 1..len + 5], &row.doc.to_be_bytes());
    let _ = take_bytes(&mut cells[len + 5..len + 7], &row.place.to_be_bytes());
}

// Puts a row at the end of a page, and the new count of bytes into its first two cells. If the row does not fit, it refuses
// and leaves all as it is.
pub fn put_row(page: &mut [u64], row: &Row) -> Result<(), Misfit>
    ensures fits { is_ok result ≡ room_for page.old row.now }
    ensures page { page.new ≡ pick (is_ok result) (with_row page.old row.now) page.old }
{
    let end = rows_end(page);
    let next = end + row.size();
    if end < 2 || next > 504 || next > page.len() {
        return Err(Misfit);
    }
    put_bytes(&mut page[end..next], row);
    take_bytes(&mut page[..2], &((next - 2) as u16).to_be_bytes())
}
