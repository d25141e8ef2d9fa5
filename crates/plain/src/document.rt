// A document of the plain engine.
ghost use Rattle.std.specs.Prelude.{◌≡◌, IfOk};
ghost use Rattle.questions.specs.Query.{matches};
ghost use Rattle.matching.specs.View.{query_of};
ghost use Rattle.plain.specs.View.{a_doc};

use documents::Texts;
use matching::Query;
use std::alloc::{AllocError, Global};
use std::marker::Model;

// A document owns its title and its body. To copy it asks for memory, and can fail. Its fields are open: one is made of texts that are there, and its texts
// are taken out, with no copy of them.
#[derive(Clone, Drop)]
pub struct Document {
    pub name: u64,
    pub title: Vec<u8>,
    pub body: Vec<u8>,
}

// A document is read as the statements have it: its name, its title and its body.
impl Model for Document {
    ghost use Rattle.documents.specs.Document.{Doc};
    ghost use Rattle.plain.specs.View.{a_doc};

    ghost Value = { Doc };

    ghost view = { λ d. a_doc d.name d.title.items d.body.items };
}

impl Document {
    // A document of this name, title and body.
    pub fn new(heap: Global, name: u64, texts: Texts<'_>) -> Result<Document, AllocError>
        ensures { IfOk result (λ d. d ≡ a_doc name texts.entry.title.now texts.entry.body.now) }
    {
        let title = Vec::from_slice(heap, texts.title)?;
        let body = Vec::from_slice(heap, texts.body)?;
        Ok(Document { name, title, body })
    }

    // The same document once more, on this heap.
    pub fn copy(&self, heap: Global) -> Result<Document, AllocError>
        ensures { IfOk result (λ d. d ≡ self.now) }
    {
        Document::new(heap, self.name(), self.texts())
    }

    // The name it goes by.
    pub fn name(&self) -> u64
        ensures { result ≡ self.now.name }
    {
        self.name
    }

    // Its title and its body.
    pub fn texts(&self) -> Texts<'_>
        ensures title { result.title.now ≡ self.now.title }
        ensures body { result.body.now ≡ self.now.body }
    {
        Texts {
            title: self.title.as_slice(),
            body: self.body.as_slice(),
        }
    }

    // Whether it matches a question.
    pub(crate) fn matches(&self, query: &Query) -> bool
        ensures { result ≡ matches self.now (query_of query.now) }
    {
        query.matches(self.texts())
    }
}
