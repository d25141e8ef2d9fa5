// What documents weigh, in bytes.
ghost use Rattle.std.specs.Prelude.{◌+◌, ◌^◌, ◌<◌};
ghost use Rattle.std.specs.Option.{SomeIff};
ghost use Rattle.documents.specs.Room.{doc_weight};
ghost use Rattle.reports.specs.Plain.{weight_of};

use crate::document::Document;

// Each document has so many bytes besides its title and its body.
const BESIDES: u64 = 256;

// What the documents of a list weigh; none where that is no number of 64 bits.
pub fn weight_of(documents: &[Document]) -> Option<u64>
    ensures { SomeIff result (weight_of documents.now < 2 ^ 64) (weight_of documents.now) }
{
    let mut sum = 0;
    for document in documents {
        sum = add_weight(sum, document)?;
    }
    Some(sum)
}

// What a document and so much else weigh.
fn add_weight(sum: u64, document: &Document) -> Option<u64>
    ensures { SomeIff result (sum + doc_weight document.now < 2 ^ 64) (sum + doc_weight document.now) }
{
    let texts = document.texts();
    let title = texts.title.len() as u64;
    let body = texts.body.len() as u64;
    sum.checked_add(BESIDES)?
        .checked_add(title)?
        .checked_add(body)
}
