// The plain engine. A command is answered from the lists, and the documents that it makes take their places when all of them are made: where there is no
// memory for them, there is no answer, and nothing has changed.
ghost use Rattle.std.specs.Prelude.{◌≡◌, ◌^◌, ◌<◌, MatchResult};
ghost use Rattle.std.specs.Option.{SomeIff};
ghost use Rattle.reports.specs.Command.{put, remove, note, how_many, fetch, sweep};
ghost use Rattle.reports.specs.Plain.{after_stop, weight};
ghost use Rattle.matching.specs.View.{query_of};
ghost use Rattle.plain.specs.View.{empty_plain, changed};
ghost use Rattle.plain.specs.Turned.{Turned};

use crate::asking::count;
use crate::document::Document;
use crate::lists::{parted, put_among, texts};
use crate::weights::weight_of;
use documents::Texts;
use matching::Query;
use reports::Refusal;
use std::alloc::{AllocError, Global};
use std::marker::Model;

// The answer to a command: what is shown, row by row, or why it is refused. A refusal is an answer, and is compared as the rows are; want of memory is
// none, so the functions below give `Result<Answer, AllocError>`, and no one error for both.
pub type Answer = Result<Vec<Vec<u8>>, Refusal>;

// The documents, and the heap that they are on. They stand in lists, and each command goes through them as the statements do. A map by name would find
// one sooner, but this engine is there to be compared with, and the quick form is what is compared. The lists are open: whoever compares makes an engine
// of lists that are there, and takes them out.
#[derive(Drop)]
pub struct Plain {
    pub heap: Global,
    // The documents that are asked.
    pub asked: Vec<Document>,
    // Those that will be asked from the next note on.
    pub coming: Vec<Document>,
    // Versions that are neither any more, but were since the last sweep.
    pub gone: Vec<Document>,
}

// The plain engine is read as the statements have it.
impl Model for Plain {
    ghost use Rattle.reports.specs.Plain as said;
    ghost use Rattle.plain.specs.View.{a_plain};

    ghost Value = { said.Plain };

    ghost view = { λ p. a_plain p.asked.items p.coming.items p.gone.items };
}

impl Plain {
    // No documents.
    pub fn new(heap: Global) -> Plain
        ensures { result ≡ empty_plain }
    {
        let asked = Vec::new(heap);
        let coming = Vec::new(heap);
        let gone = Vec::new(heap);
        Plain {
            heap,
            asked,
            coming,
            gone,
        }
    }

    // The documents that are asked.
    pub fn asked(&self) -> &[Document]
        ensures { result.now ≡ self.now.asked }
    {
        self.asked.as_slice()
    }

    // Those that will be asked from the next note on.
    pub fn coming(&self) -> &[Document]
        ensures { result.now ≡ self.now.coming }
    {
        self.coming.as_slice()
    }

    // Versions that are neither any more, but were since the last sweep.
    pub fn gone(&self) -> &[Document]
        ensures { result.now ≡ self.now.gone }
    {
        self.gone.as_slice()
    }

    // A document is coming, in place of one of that name.
    pub fn put(&mut self, name: u64, texts: Texts<'_>) -> Result<Answer, AllocError>
        ensures { Turned (put name texts.entry.title.now texts.entry.body.now) self.old result self.new }
    {
        let document = Document::new(self.heap, name, texts)?;
        let (leaving, mut coming) = parted(self.heap, name, &self.coming)?;
        put_among(&mut coming, document)?;
        self.change(leaving, coming)?;
        Ok(Ok(Vec::new(self.heap)))
    }

    // A document is not coming any more.
    pub fn remove(&mut self, name: u64) -> Result<Answer, AllocError>
        ensures { Turned (remove name) self.old result self.new }
    {
        if !self.coming.iter().any(|document| document.name() == name) {
            return Ok(Err(Refusal::NoSuchName));
        }
        let (leaving, coming) = parted(self.heap, name, &self.coming)?;
        self.change(leaving, coming)?;
        Ok(Ok(Vec::new(self.heap)))
    }

    // What is coming is asked from now on.
    pub fn note(&mut self) -> Result<Answer, AllocError>
        ensures { Turned note self.old result self.new }
    {
        self.asked = self.coming.clone()?;
        Ok(Ok(Vec::new(self.heap)))
    }

    // The same, and what is neither any more is forgotten.
    pub fn sweep(&mut self) -> Result<Answer, AllocError>
        ensures { Turned sweep self.old result self.new }
    {
        let answer = self.note()?;
        self.gone.clear();
        Ok(answer)
    }

    // A document: its title is shown, and then its body.
    pub fn fetch(&self, name: u64) -> Result<Answer, AllocError>
        ensures { Turned (fetch name) self.now result self.now }
    {
        let rows = texts(self.heap, name, &self.asked)?;
        if rows.is_empty() {
            return Ok(Err(Refusal::NoSuchName));
        }
        Ok(Ok(rows))
    }

    // How many of the documents that are asked match a question.
    pub fn how_many(&self, query: &Query) -> Result<Answer, AllocError>
        ensures { Turned (how_many (query_of query.now)) self.now result self.now }
    {
        let row = count(query, &self.asked).to_be_bytes();
        Ok(Ok(vec![in self.heap; Vec::from_slice(self.heap, &row)?]?))
    }

    // A stop: what was not noted is gone.
    pub fn after_stop(&mut self) -> Result<(), AllocError>
        ensures { MatchResult result (λ _. self.new ≡ after_stop self.old) (λ _. self.new ≡ self.old) }
    {
        let coming = self.asked.clone()?;
        self.gone.append(&mut self.coming)?;
        self.coming = coming;
        Ok(())
    }

    // What there is to keep, in bytes; none where that is no number of 64 bits.
    pub fn weight(&self) -> Option<u64>
        ensures { SomeIff result (weight self.now < 2 ^ 64) (weight self.now) }
    {
        let asked = weight_of(&self.asked)?;
        let coming = weight_of(&self.coming)?;
        asked.checked_add(coming)
    }

    // Other documents are coming, and those that leave are gone.
    fn change(
        &mut self,
        mut leaving: Vec<Document>,
        coming: Vec<Document>,
    ) -> Result<(), AllocError>
        ensures { MatchResult result (λ _. self.new ≡ changed self.old leaving.items coming.items) (λ _. self.new ≡ self.old) }
    {
        self.gone.append(&mut leaving)?;
        self.coming = coming;
        Ok(())
    }
}
