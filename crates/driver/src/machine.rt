// The engine beside its device: it is told one thing, and does one act, at a time.
ghost use Rattle.std.specs.Prelude.{◌≡◌, ℕ, ◌+◌, ◌<◌, ◌^◌, ◌≤◌, ◌⊎◌, List, [], ◌∷◌, ◌++◌, map, length, take, true, IfOk, vec_items, vec_len, MatchResult, OnOk, ◌≢◌};
ghost use Rattle.pages.specs.Bytes.{all_bytes};
ghost use Rattle.reports.specs.Run.{World, Act};
ghost use Rattle.reports.specs.Entry.{ActTold};
ghost use Rattle.reports.specs.Machine.{own};
ghost use Rattle.reports.specs.Stepping.{event_told};
ghost use Rattle.driver.specs.Acts.{meant, rows_of, ToldSo, Faulty, Acted, Went, Powered, Commanded};

use crate::devices::{Device, Page};
use crate::faults::Fault;
use reports::{Event, Told};
use std::alloc::{AllocError, Global};
use std::ops::ControlFlow;

// More acts than any command has.
pub const MOST_ACTS: u64 = 1 << 40;

// So much the engine may show at once.
const LENT: usize = 131_072;

// How a command ended.
#[derive(Clone, Copy, Debug, PartialEq, Eq)]
pub enum End {
    Done,
    // The engine refused it, by this number, and it is printed so. It stays a number: any from 1 to 999 is promised here, and the engine's own `Refusal` has
    // only some of them.
    Refused(u64),
    // It was still running after as many acts as it was given.
    Stopped,
}

// How a command went.
#[derive(Drop)]
pub struct Ran {
    // What was shown, row by row.
    pub rows: Vec<Vec<u8>>,
    // How many pages were read and written.
    pub pages: u64,
    pub end: End,
}

impl Ran {
    // A command that was not stopped.
    pub fn ended(self) -> Result<Ran, Fault>
        ensures { MatchResult result (λ ran. (ran ≡ self) × (self.end ≢ End.Stopped)) (λ e. (e ≡ Fault.Endless) × (self.end ≡ End.Stopped)) }
    {
        match self.end {
            End::Stopped => Err(Fault::Endless),
            End::Done | End::Refused(_) => Ok(self),
        }
    }
}

// What the engine is told next. It is no option of an event: a `None` would say that nothing is told, where it is the page.
#[derive(Clone, Copy)]
enum Next<'a> {
    Event(Event<'a>),
    // The page that it asked for, which stands beside it: an event would hold it while the device reads another.
    Page,
}

// An engine on its device: its memory, the page that was read last or is written next, and the row that it is lent to show and to hand over pages.
#[derive(Drop)]
pub struct Engine<D: Device + Drop> {
    device: D,
    heap: Global,
    memory: Vec<u64>,
    page: Page,
    lent: Vec<u8>,
    ghost sized: { (vec_len memory ≡ 262144) × (131072 ≤ vec_len lent) },
}

impl<D: Device + Drop> Engine<D> {
    // An engine beside this device, with no power yet.
    pub fn new(heap: Global, device: D) -> Result<Engine<D>, AllocError>
        ensures { IfOk result (λ e. e.device ≡ device) }
    {
        let memory = vec![in heap; 0; reports::CELLS]?;
        let lent = vec![in heap; 0; LENT]?;
        Ok(Engine {
            device,
            heap,
            memory,
            page: [0; 512],
            lent,
        })
    }

    // An engine that came up on this device.
    pub fn start(heap: Global, device: D) -> Result<Engine<D>, Fault>
        ensures { IfOk result (λ e. (ran : Ran) × Powered D.Device.stands (2 ^ 40) device e.device e.memory.items ran × (ran.end ≡ End.Done)) }
    {
        let mut engine = Engine::new(heap, device)?;
        match engine.power_on(MOST_ACTS)?.ended()?.end {
            End::Refused(number) => Err(Fault::NoStart(number)),
            _ => Ok(engine),
        }
    }

    // The device, for whatever comes after this engine.
    pub fn into_device(self) -> D
        ensures { result ≡ self.device }
    {
        let Engine { device, .. } = self;
        device
    }

    // Power comes: the engine knows nothing but what is on its pages. It does so many acts at most.
    pub fn power_on(&mut self, acts: u64) -> Result<Ran, Fault>
        ensures { IfOk result (λ ran. Powered D.Device.stands acts self.old.device self.new.device self.new.memory.items ran) }
    {
        self.memory.as_mut_slice().fill(0);
        let pages = self.device.pages();
        self.run(Event::On(pages), acts)
    }

    // Says a command to the engine, which does so many acts at most.
    pub fn command(&mut self, bytes: &[u8], acts: u64) -> Result<Ran, Fault>
        ensures { IfOk result (λ ran. Commanded D.Device.stands acts bytes.now self.old.device self.old.memory.items self.new.device self.new.memory.items ran) }
    {
        self.run(Event::Said(bytes), acts)
    }

    // Tells the engine this, does what it asks for, and so on, for so many acts at most.
    fn run(&mut self, first: Event<'_>, acts: u64) -> Result<Ran, Fault>
        ensures { IfOk result (λ ran. Went D.Device.stands acts (event_told first.entry) self.old.device self.old.memory.items self.new.device self.new.memory.items ran) }
    {
        let mut ran = Ran {
            rows: Vec::new(self.heap),
            pages: 0,
            end: End::Stopped,
        };
        let mut next = Next::Event(first);
        for _ in 0..acts {
            let told = self.tell(next);
            match self.act(told, &mut ran)? {
                ControlFlow::Continue(then) => next = then,
                ControlFlow::Break(end) => {
                    ran.end = end;
                    return Ok(ran);
                }
            }
        }
        Ok(ran)
    }

    // Tells the engine one thing.
    fn tell(&mut self, next: Next<'_>) -> Told
        ensures device { self.new.device ≡ self.old.device }
        ensures says { ToldSo (own.step self.old.memory.items (meant next.entry self.old.page)) result self.old.lent.items self.new.memory.items self.new.lent.items }
    {
        let memory = self.memory.as_mut_slice();
        let lent = self.lent.as_mut_slice();
        match next {
            Next::Event(event) => reports::tell(memory, event, lent),
            Next::Page => reports::tell(memory, Event::Page(&self.page), lent),
        }
    }

    // Does what the engine asks for.
    fn act(&mut self, told: Told, ran: &mut Ran) -> Result<ControlFlow<End, Next<'static>>, Fault>
        requires { ran.old.pages + 1 < 2 ^ 64 }
        ensures few { ran.new.pages ≤ ran.old.pages + 1 }
        ensures same { (ran.new.end ≡ ran.old.end) × (self.new.memory.items ≡ self.old.memory.items) }
        ensures made { IfOk result (λ n. (a : Act) (out : List ℕ) → ActTold a told out self.old.lent.items → (w : World) → D.Device.stands self.old.device w.device → Faulty w a ⊎ Acted D.Device.stands w a (rows_of ran.old) ran.old.pages n self.new.page self.new.device (rows_of ran.new) ran.new.pages) }
    {
        match told {
            Told::Read(page) => {
                self.device.read(page, &mut self.page)?;
                ran.pages += 1;
                Ok(ControlFlow::Continue(Next::Page))
            }
            Told::Write(page) => {
                self.page = front_page(self.lent.as_slice());
                self.device.write(page, &self.page)?;
                ran.pages += 1;
                Ok(ControlFlow::Continue(Next::Event(Event::Next)))
            }
            Told::Flush => {
                self.device.flush()?;
                Ok(ControlFlow::Continue(Next::Event(Event::Next)))
            }
            Told::Shows(count) => {
                self.show(count, &mut ran.rows)?;
                Ok(ControlFlow::Continue(Next::Event(Event::Next)))
            }
            Told::Done => Ok(ControlFlow::Break(End::Done)),
            Told::No(number) => Ok(ControlFlow::Break(refusal(number)?)),
        }
    }

    // Keeps a row that is shown.
    fn show(&self, count: u64, rows: &mut Vec<Vec<u8>>) -> Result<(), Fault>
        ensures { OnOk result ((count ≤ vec_len self.now.lent) × (map vec_items rows.new.items ≡ map vec_items rows.old.items ++ take count self.now.lent.items ∷ [])) }
    {
        let lent = self.lent.as_slice();
        let row = lent.get(..count as usize).ok_or(Fault::TooLong(count))?;
        rows.push(Vec::from_slice(self.heap, row)?)?;
        Ok(())
    }
}

// The page at the front of the lent row. That it is bytes is said here, where their type tells it.
fn front_page(lent: &[u8]) -> Page
    requires { 512 ≤ length lent.now }
    ensures front { result ≡ take 512 lent.now }
    ensures bytes { all_bytes result ≡ true }
{
    let mut page = [0; 512];
    page.copy_from_slice(&lent[..512]);
    page
}

// A refusal has a number below 1,000, and not 0.
fn refusal(number: u64) -> Result<End, Fault>
    ensures { MatchResult result (λ n. (1 ≤ number) × (number < 1000) × (n ≡ End.Refused number)) (λ e. (e ≡ Fault.NoRefusal number) × (number < 1000 → number ≡ 0)) }
{
    if (1..1000).contains(&number) {
        Ok(End::Refused(number))
    } else {
        Err(Fault::NoRefusal(number))
    }
}
