// A page in memory: one byte to a cell. A cell may hold any number, so bytes are given out only of cells that hold bytes.
ghost use Rattle.std.specs.Prelude.{◌≡◌, ◌&&◌, length, ◌==◌, is_ok, true, false, MatchOption};
ghost use Rattle.pages.specs.Bytes.{all_bytes};
ghost use Rattle.pages.specs.Lists.{pick, zeros};
ghost use Rattle.pages.specs.Device.{a_page};

use crate::misfit::Misfit;

// Whether each cell holds a byte. A line of its own, since its contract says so in the words of the statements.
pub fn hold_bytes(cells: &[u64]) -> bool
    ensures { result ≡ all_bytes cells.now }
{
    cells.iter().all(|cell| *cell < 256)
}

// Takes bytes into as many cells. If there are not as many, it refuses and leaves all as it is.
pub fn take_bytes(cells: &mut [u64], bytes: &[u8]) -> Result<(), Misfit>
    ensures taken { is_ok result ≡ (length bytes.now == length cells.old) }
    ensures cells { cells.new ≡ pick (is_ok result) bytes.now cells.old }
{
    if bytes.len() != cells.len() {
        return Err(Misfit);
    }
    // The place is named by its index: of what is written through `iter_mut().zip(..)` a proof knows the length alone.
    for (i, byte) in bytes.iter().enumerate() {
        cells[i] = u64::from(*byte);
    }
    Ok(())
}

// Gives the cells as bytes. If a cell holds no byte, or there are not as many bytes to write, it refuses and leaves all as
// it is.
pub fn give_bytes(cells: &[u64], out: &mut [u8]) -> Result<(), Misfit>
    ensures given { is_ok result ≡ (all_bytes cells.now && length cells.now == length out.old) }
    ensures out { out.new ≡ pick (is_ok result) cells.now out.old }
{
    if cells.len() != out.len() || !hold_bytes(cells) {
        return Err(Misfit);
    }
    // Named by its index, as above.
    for (i, cell) in cells.iter().enumerate() {
        out[i] = *cell as u8;
    }
    Ok(())
}

// Cells as so many bytes; none if there are not so many, or one of them holds no byte.
pub fn bytes_in<const N: usize>(cells: &[u64]) -> Option<[u8; N]>
    ensures { MatchOption result ((all_bytes cells.now && length cells.now == N) ≡ false) (λ b. ((all_bytes cells.now && length cells.now == N) ≡ true) × (b ≡ cells.now)) }
{
    let mut bytes = [0; N];
    give_bytes(cells, &mut bytes).ok()?;
    Some(bytes)
}

// Whether cells hold a page: 512 of them, each a byte.
pub fn is_page(cells: &[u64]) -> bool
    ensures { result ≡ a_page cells.now }
{
    cells.len() == 512 && hold_bytes(cells)
}

// Takes a page into 512 cells. If the bytes are no page, or there are not 512 cells, it refuses and leaves all as it is.
pub fn take_page(cells: &mut [u64], bytes: &[u8]) -> Result<(), Misfit>
    ensures taken { is_ok result ≡ (a_page bytes.now && length cells.old == 512) }
    ensures cells { cells.new ≡ pick (is_ok result) bytes.now cells.old }
{
    if bytes.len() != 512 {
        return Err(Misfit);
    }
    take_bytes(cells, bytes)
}

// Gives the page in the cells as bytes. If the cells hold no page, or it is not lent 512 bytes, it refuses and leaves all
// as it is.
pub fn give_page(cells: &[u64], out: &mut [u8]) -> Result<(), Misfit>
    ensures given { is_ok result ≡ (a_page cells.now && length out.old == 512) }
    ensures out { out.new ≡ pick (is_ok result) cells.now out.old }
{
    if out.len() != 512 {
        return Err(Misfit);
    }
    give_bytes(cells, out)
}

// Writes 0 into every cell. It is `fill`; its contract says what is left in the words of the statements.
pub fn clear(cells: &mut [u64])
    ensures { cells.new ≡ zeros (length cells.old) }
{
    cells.fill(0);
}
