// The pages of a document: the header at the front of the first one, and what stands on each. Text is lent in cells of memory, one byte to a cell, and
// copied to a page as it is written.
ghost use Rattle.std.specs.Prelude.{◌≡◌, ◌+◌, ◌<◌, ◌≤◌, ◌%◌, ◌++◌, length, take, drop, is_ok, Some};
ghost use Rattle.std.specs.Result.{IfOk, result_err};
ghost use Rattle.pages.specs.Lists.{pick};
ghost use Rattle.pages.specs.Places.{written};
ghost use Rattle.documents.specs.Pages.{page_count, header_bytes, header_for, too_long, filled, read_header, low_bytes, can_write, unfit, unfit_text, page_from_cells};

use pages::{bytes_in, number};
use std::error::Error;
use std::fmt;

// The bytes of a header, of the content on a page, and of a page.
const HEADER: usize = 14;

const CONTENT: usize = 504;

const PAGE: usize = 512;

// What the front of the first page of a document says: its name, the lengths of title and body, and how many words they have together.
#[derive(Clone, Copy, Debug, PartialEq, Eq)]
pub struct Header {
    pub name: u64,
    pub title_len: u64,
    pub body_len: u64,
    pub words: u64,
}

// How many pages a document takes whose title and body are so long. Each length is divided first, so that no sum overflows.
pub fn page_count(title_len: u64, body_len: u64) -> u64
    ensures { result ≡ page_count title_len body_len }
{
    let (header, page) = (HEADER as u64, CONTENT as u64);
    title_len / page
        + body_len / page
        + (header + title_len % page + body_len % page).div_ceil(page)
}

// The header at the front of a page that lies in cells; none if there are fewer than 14, or if one of these holds no byte.
pub fn read_header(page: &[u64]) -> Option<Header>
    ensures { result ≡ read_header page.now }
{
    let bytes: [u8; HEADER] = bytes_in(page.get(..HEADER)?)?;
    Some(Header {
        name: number(&bytes[0..8]),
        title_len: number(&bytes[8..9]),
        body_len: number(&bytes[9..11]),
        words: number(&bytes[11..14]),
    })
}

// A document whose title and body lie in cells of memory, one byte to a cell. Of a cell that holds no byte, the lowest byte is taken.
#[derive(Clone, Copy)]
pub struct Content<'a> {
    pub name: u64,
    pub title: &'a [u64],
    pub body: &'a [u64],
    // How many words title and body have together.
    pub words: u64,
}

// Why a page is not written: the first of these that is so.
#[derive(Clone, Copy, Debug, PartialEq, Eq)]
pub enum Unfit {
    // The row has fewer than 512 bytes.
    RowTooShort,
    // The length of the title does not fit one byte.
    TitleTooLong,
    // The length of the body does not fit two bytes.
    BodyTooLong,
    // The document has fewer pages.
    NoSuchPage,
}

impl fmt::Display for Unfit {
    ghost output = { λ why. Some (unfit_text why) };

    fn fmt<W: fmt::Write>(&self, f: &mut fmt::Formatter<W>) -> fmt::Result {
        match self {
            Unfit::RowTooShort => write!(f, "the row is too short"),
            Unfit::TitleTooLong => write!(f, "the title is too long"),
            Unfit::BodyTooLong => write!(f, "the body is too long"),
            Unfit::NoSuchPage => write!(f, "there is no such page"),
        }
    }
}

impl Error for Unfit {}

impl Content<'_> {
    // Writes page `index` of the document into the first 512 bytes of a row and leaves the others. What it refuses leaves the row as it was.
    pub fn write_page(&self, index: u64, out: &mut [u8]) -> Result<(), Unfit>
        ensures fits { is_ok result ≡ can_write self.now.title.now self.now.body.now index out.old }
        ensures refused { result_err result ≡ unfit self.now.title.now self.now.body.now index out.old }
        ensures out { out.new ≡ pick (is_ok result) (written out.old 0 (page_from_cells self.now.name self.now.title.now self.now.body.now self.now.words index)) out.old }
    {
        if out.len() < PAGE {
            return Err(Unfit::RowTooShort);
        }
        let header = self.header()?;
        if index >= page_count(header.title_len, header.body_len) {
            return Err(Unfit::NoSuchPage);
        }
        self.fill_page(&header.spell(), index as usize * CONTENT, out);
        Ok(())
    }

    // Its header, where title and body are not too long for one.
    fn header(&self) -> Result<Header, Unfit>
        ensures header { IfOk result (λ h. h ≡ header_for self.now.name self.now.title.now self.now.body.now self.now.words) }
        ensures refused { result_err result ≡ too_long self.now.title.now self.now.body.now }
    {
        if self.title.len() > 255 {
            return Err(Unfit::TitleTooLong);
        }
        if self.body.len() > 65_535 {
            return Err(Unfit::BodyTooLong);
        }
        Ok(Header {
            name: self.name,
            title_len: self.title.len() as u64,
            body_len: self.body.len() as u64,
            words: self.words,
        })
    }

    // Fills the first 512 bytes of a row with 504 bytes of header, title and body from a place on, and zeros.
    fn fill_page(&self, header: &[u8], start: usize, out: &mut [u8])
        requires { (512 ≤ length out.old) × (start < 4294967296) }
        ensures { out.new ≡ written out.old 0 (filled 512 (take 504 (drop start (header.now ++ (low_bytes self.now.title.now ++ low_bytes self.now.body.now))))) }
    {
        // Each part is cut before it is walked, so that nothing that comes before the page has to be gone through.
        let in_text = start.saturating_sub(header.len());
        let in_body = in_text.saturating_sub(self.title.len());
        let content = past(header, start)
            .iter()
            .copied()
            .chain(past(self.title, in_text).iter().map(low_byte))
            .chain(past(self.body, in_body).iter().map(low_byte));
        out[..PAGE].fill(0);
        // Each place is counted by `enumerate`: past a `zip` with the row's `iter_mut`, a proof knows the length of the row and no byte of it.
        for (i, byte) in content.take(CONTENT).enumerate() {
            out[i] = byte;
        }
    }
}

// What comes after the first so many; nothing where there are no more.
fn past<T>(all: &[T], count: usize) -> &[T]
    ensures { result.now ≡ drop count all.now }
{
    all.get(count..).unwrap_or(&[])
}

// The lowest byte of what stands in a cell.
fn low_byte(cell: &u64) -> u8
    ensures { result ≡ cell.now % 256 }
{
    (*cell % 256) as u8
}

impl Header {
    // Its 14 bytes: of each number as many of the lowest as it has there.
    fn spell(self) -> [u8; HEADER]
        ensures { result ≡ header_bytes self }
    {
        let name = self.name.to_be_bytes();
        let title_len = self.title_len.to_be_bytes();
        let body_len = self.body_len.to_be_bytes();
        let words = self.words.to_be_bytes();
        let mut bytes = [0; HEADER];
        bytes[0..8].copy_from_slice(&name);
        bytes[8..9].copy_from_slice(&title_len[7..]);
        bytes[9..11].copy_from_slice(&body_len[6..]);
        bytes[11..14].copy_from_slice(&words[5..]);
        bytes
    }
}

#[cfg(test)]
mod tests {
    use super::*;
    use std::test::Fail;

    // The document of a title and a body.
    fn content<'a>(name: u64, title: &'a [u64], body: &'a [u64], words: u64) -> Content<'a> {
        Content {
            name,
            title,
            body,
            words,
        }
    }

    #[test]
    fn an_empty_document_has_one_page(rt: HostRuntime) {
        let mut row = [9; 513];
        let empty = content(0x0102, &[], &[], 0);
        assert_eq!(rt; empty.write_page(0, &mut row), Ok(()));
        assert_eq!(rt; row[6], 1);
        assert_eq!(rt; row[7], 2);
        assert_eq!(rt; row[511], 0);
        assert_eq!(rt; row[512], 9);
        assert_eq!(rt;
            empty.write_page(1, &mut row),
            Err(Unfit::NoSuchPage),
            "there is no second page"
        );
        assert_eq!(rt;
            empty.write_page(0, &mut row[0..511]),
            Err(Unfit::RowTooShort),
            "the row is too short"
        );
    }

    #[test]
    fn content_of_504_bytes_is_one_page(rt: HostRuntime) {
        assert_eq!(rt; page_count(0, 490), 1);
        assert_eq!(rt; page_count(0, 491), 2);
        assert_eq!(rt; page_count(255, 65_535), 131);
        let body = [65; 490];
        let mut row = [9; 512];
        assert_eq!(rt; content(1, &[], &body, 1).write_page(0, &mut row), Ok(()));
        assert_eq!(rt; row[503], 65);
        assert_eq!(rt; row[504], 0);
    }

    #[test]
    fn the_longest_document_has_131_pages(rt: HostRuntime) {
        let title = [65; 255];
        let body = [66; 65_535];
        let longest = content(1, &title, &body, 2);
        let mut row = [9; 512];
        assert_eq!(rt; longest.write_page(130, &mut row), Ok(()));
        assert_eq!(rt; row[283], 66);
        assert_eq!(rt; row[284], 0);
        assert_eq!(rt; longest.write_page(131, &mut row), Err(Unfit::NoSuchPage));
    }

    #[test]
    fn what_is_too_long_is_refused(rt: HostRuntime) {
        let title = [65; 256];
        let body = [66; 65_536];
        let mut row = [9; 512];
        assert_eq!(rt;
            content(1, &title, &body, 2).write_page(0, &mut row),
            Err(Unfit::TitleTooLong)
        );
        assert_eq!(rt;
            content(1, &[], &body, 1).write_page(0, &mut row),
            Err(Unfit::BodyTooLong)
        );
        assert_eq!(rt; row[0], 9);
    }

    #[test]
    fn what_is_written_is_read(rt: HostRuntime) -> Result<(), Fail> {
        let mut row = [9; 512];
        let mut page = [256; 512];
        assert_eq!(rt; read_header(&page), None, "no cell holds a byte");
        assert_eq!(rt; read_header(&[0; 13]), None, "there are too few cells");
        let written = content(77, &[321, 66], &[67; 300], 3).write_page(0, &mut row);
        assert_eq!(rt; written, Ok(()));
        for (cell, byte) in page.iter_mut().zip(&row) {
            *cell = u64::from(*byte);
        }
        assert_eq!(rt; row[14], 65, "the lowest byte of 321");
        let header = Header {
            name: 77,
            title_len: 2,
            body_len: 300,
            words: 3,
        };
        assert_eq!(rt; read_header(&page), Some(header));
        Ok(())
    }
}
