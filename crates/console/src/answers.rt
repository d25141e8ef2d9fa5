// What the engine shows, as lines to read.
ghost use Rattle.std.specs.Prelude.{◌≡◌, map, IfOk, vec_items};
ghost use Rattle.std.specs.Fn.{FnReturnsAt};
ghost use Rattle.driver.specs.Acts.{rows_of};
ghost use Rattle.console.specs.Answered.{Kind, Hit, Number, line_of, lines, hit_lines, shown, answered, Gives};

use crate::typed::Request;
use driver::{End, Ran};
use std::alloc::{AllocError, Global};

// What is printed of how a command went.
pub fn answer(heap: Global, request: &Request<'_>, ran: &Ran) -> Result<Vec<u8>, AllocError>
    ensures { IfOk result (λ v. v.items ≡ answered request.now (rows_of ran.now) ran.now.end) }
{
    match ran.end {
        End::Done => show(heap, request, ran.rows.as_slice()),
        End::Refused(number) => Ok(format!(in heap; "refused {number}\n")?.into_bytes()),
        End::Stopped => Vec::from_slice(heap, b"stopped\n"),
    }
}

// What is printed of a command that was done: the rows that it showed, or that it is done.
fn show(heap: Global, request: &Request<'_>, rows: &[Vec<u8>]) -> Result<Vec<u8>, AllocError>
    ensures { IfOk result (λ v. v.items ≡ shown request.now (map vec_items rows.now)) }
{
    match request {
        Request::Ask(_, _) => show_hits(heap, rows),
        Request::Count(_) => show_rows(heap, rows, |row| count_line(heap, row)),
        Request::Fetch(_) => show_rows(heap, rows, |row| Vec::from_slice(heap, row)),
        _ => Vec::from_slice(heap, b"done\n"),
    }
}

// Where there is no hit, a line says so.
fn show_hits(heap: Global, rows: &[Vec<u8>]) -> Result<Vec<u8>, AllocError>
    ensures { IfOk result (λ v. v.items ≡ hit_lines (map vec_items rows.now)) }
{
    if rows.is_empty() {
        return Vec::from_slice(heap, b"0 match\n");
    }
    show_rows(heap, rows, |row| hit_line(heap, row))
}

// A line for each row, which is what `line` makes of it.
fn show_rows<F: Fn(&[u8]) -> Result<Vec<u8>, AllocError>>(
    heap: Global,
    rows: &[Vec<u8>],
    line: F,
) -> Result<Vec<u8>, AllocError>
    requires { F.IsAlwaysCallable line }
    ensures { (k : Kind) → Gives (FnReturnsAt F.Fn line) k → IfOk result (λ v. v.items ≡ lines k (map vec_items rows.now)) }
{
    let mut text = Vec::new(heap);
    for row in rows {
        let made = line(row.as_slice())?;
        text.extend_from_slice(made.as_slice())?;
        text.push(b'\n')?;
    }
    Ok(text)
}

// A hit: a name and its points.
fn hit_line(heap: Global, row: &[u8]) -> Result<Vec<u8>, AllocError>
    ensures { IfOk result (λ v. v.items ≡ line_of Hit row.now) }
{
    let name = pages::number(row);
    let points = pages::number_at(row, 8);
    Ok(format!(in heap; "{name}: {points}")?.into_bytes())
}

// How many match.
fn count_line(heap: Global, row: &[u8]) -> Result<Vec<u8>, AllocError>
    ensures { IfOk result (λ v. v.items ≡ line_of Number row.now) }
{
    let count = pages::number(row);
    Ok(format!(in heap; "{count} match")?.into_bytes())
}
