// What the machine is told, and what that does to its registers.
ghost use Rattle.std.specs.Prelude.{◌≡◌, ◌<◌, ◌≤◌, MatchOption};
ghost use Rattle.reports.specs.Entry.{event_of};
ghost use Rattle.reports.specs.Machine.{told, begun_from, missing};
ghost use Rattle.reports.specs.Reading.{read_command};
ghost use Rattle.reports.specs.Stepping.{event_told};

use crate::reader::{Request, read_command};
use crate::refusal::Refusal;
use crate::registers::{Phase, Registers};
use crate::starting::wake;
use pages::Root;

// What the machine is told.
#[derive(Clone, Copy)]
pub enum Event<'a> {
    // Power is there, and the device has so many pages.
    On(u64),
    // A command.
    Said(&'a [u8]),
    // The page that was asked for.
    Page(&'a [u8]),
    // The last act is done.
    Next,
}

// What a kind and some bytes say, if there is such a kind. It is a number, as `step` is given one.
#[tactic(auto, unfolding(crate::specs::Entry::event_of))]
pub(crate) fn heard<'a>(kind: u64, bytes: &'a [u8]) -> Option<Event<'a>>
    ensures { MatchOption result (3 < kind) (λ event. (kind ≤ 3) × (event_told event ≡ event_of kind bytes.now)) }
{
    match kind {
        0 => Some(Event::On(pages::number(bytes))),
        1 => Some(Event::Said(bytes)),
        2 => Some(Event::Page(bytes)),
        3 => Some(Event::Next),
        _ => None,
    }
}

impl Registers {
    // What an event does to the registers: power sets them, a command is read and begun, and a page that was wanted is taken in.
    pub(crate) fn take_in(self, event: Event<'_>) -> Registers
        ensures { result ≡ told self (event_told event.entry) }
    {
        match event {
            Event::On(n) => wake(n),
            Event::Said(text) => self.begin(text),
            Event::Page(page) => self.take_page(page),
            Event::Next => self,
        }
    }

    // Reads a command, and begins it or is about to refuse it.
    #[tactic(auto, unfolding(crate::specs::Request::Handed))]
    fn begin(self, text: &[u8]) -> Registers
        ensures { result ≡ begun_from self (read_command text.now) }
    {
        match read_command(text) {
            Some(Request::Note) => self.at(Phase::Flushing),
            Some(Request::Remove(_)) => self.look_for(self.ledger.coming),
            Some(Request::Fetch(_)) => self.look_for(self.ledger.stands.head.root),
            Some(_) => self.refusing(Refusal::Unknown),
            None => self.refusing(Refusal::NoCommand),
        }
    }

    // A root without documents has none of any name. One that has some is not looked through yet.
    fn look_for(self, root: Root) -> Registers
        ensures { result ≡ missing root self }
    {
        let refusal = if root.count == 0 {
            Refusal::NoSuchName
        } else {
            Refusal::Unknown
        };
        self.refusing(refusal)
    }
}
