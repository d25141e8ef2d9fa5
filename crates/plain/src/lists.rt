// Lists of documents: which of them have a name, where one of a name goes, and what is shown of those of a name.
ghost use Rattle.std.specs.Prelude.{◌≡◌, ◌≤◌, [], ◌∷◌, ◌++◌, map, length, IfOk, vec_items, OnOk};
ghost use Rattle.pages.specs.Lists.{flat};
ghost use Rattle.reports.specs.Plain.{named, others, put_doc, shown_doc};
ghost use Rattle.plain.specs.View.{GoesAt};

use crate::document::Document;
use documents::Texts;
use std::alloc::{AllocError, Global};

// Copies of the documents of a list: first those of a name, and then all others. Each is put at once into the list where it stays.
pub fn parted(
    heap: Global,
    name: u64,
    among: &[Document],
) -> Result<(Vec<Document>, Vec<Document>), AllocError>
    ensures { IfOk result (λ v. (v.0.items ≡ named name among.now) × (v.1.items ≡ others name among.now)) }
{
    let mut of_the_name = Vec::new(heap);
    let mut others = Vec::new(heap);
    for document in among {
        let copy = document.copy(heap)?;
        if copy.name() == name {
            of_the_name.push(copy)?;
        } else {
            others.push(copy)?;
        }
    }
    Ok((of_the_name, others))
}

// Puts a document among others, where its name goes.
pub fn put_among(documents: &mut Vec<Document>, document: Document) -> Result<(), AllocError>
    ensures { OnOk result (documents.new.items ≡ put_doc document documents.old.items) }
{
    let at = place(document.name(), documents);
    documents.insert(at, document)?;
    Ok(())
}

// Where a document of this name goes: before the first one of a greater name. The library's `partition_point` says that only of a list in order, and the
// statements say it of any.
fn place(name: u64, among: &[Document]) -> usize
    ensures within { result ≤ length among.now }
    ensures place { GoesAt name among.now result }
{
    among
        .iter()
        .position(|document| name < document.name())
        .unwrap_or(among.len())
}

// The titles and bodies of the documents of a name.
pub fn texts(heap: Global, name: u64, among: &[Document]) -> Result<Vec<Vec<u8>>, AllocError>
    ensures { IfOk result (λ v. map vec_items v.items ≡ flat shown_doc (named name among.now)) }
{
    let mut rows = Vec::new(heap);
    for document in among {
        if document.name() == name {
            add_texts(&mut rows, heap, document.texts())?;
        }
    }
    Ok(rows)
}

// Adds a title and a body to the rows that are shown.
fn add_texts(rows: &mut Vec<Vec<u8>>, heap: Global, texts: Texts<'_>) -> Result<(), AllocError>
    ensures { OnOk result (map vec_items rows.new.items ≡ map vec_items rows.old.items ++ texts.entry.title.now ∷ texts.entry.body.now ∷ []) }
{
    rows.push(Vec::from_slice(heap, texts.title)?)?;
    rows.push(Vec::from_slice(heap, texts.body)?)?;
    Ok(())
}
