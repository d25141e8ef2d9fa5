// One step of the machine: what the world tells is taken in, and then small moves are made until there is an act.
ghost use Rattle.std.specs.Prelude.{◌≡◌, ℕ, ◌≤◌, List, length};
ghost use Rattle.pages.specs.Head.{head_page};
ghost use Rattle.reports.specs.Command.{finding};
ghost use Rattle.reports.specs.Entry.{TellSays, tell_fits, StepSays, step_fits};
ghost use Rattle.reports.specs.Machine.{own, next_head, other_page, committed};
ghost use Rattle.reports.specs.Promise.{Whole};
ghost use Rattle.reports.specs.Run.{write};
ghost use Rattle.reports.specs.Stepping.{event_told, MoveSays, MovesSay};
ghost use Rattle.reports.specs.Entry.{ActTold};

use crate::Told;
use crate::events::{Event, heard};
use crate::registers::{CELLS, Ledger, Phase, Registers};
use pages::{Head, Standing};

// The length that a lent row has at least: the longest row that is shown fits it.
const ROW: usize = 131_072;

// A step makes at most so many moves.
const MOST_MOVES: usize = 65_536;

impl Ledger {
    // The head that the next commit writes: the root that is coming, one further in the sequence.
    fn next_head(self) -> Head
        ensures { result ≡ next_head self }
    {
        let standing = self.stands.head;
        Head {
            sequence: standing.sequence.saturating_add(1),
            end: self.end,
            root: self.coming,
            ..standing
        }
    }

    // The next head goes into the lent row, to be written to the head page that is not in use: the other of 0 and 1. It is the one that stands from now
    // on.
    fn write_next(&mut self, out: &mut [u8]) -> Told
        requires { 512 ≤ length out.old }
        ensures ledger { self.new ≡ committed self.old }
        ensures told { ActTold (write (other_page self.old) (head_page (next_head self.old))) result out.old out.new }
    {
        let head = self.next_head();
        let page = 1u64.saturating_sub(self.stands.page);
        // The row has room for a page, so this is no misfit.
        let _ = pages::write_head(head, &mut out[0..512]);
        self.stands = Standing { page, head };
        Told::Write(page)
    }
}

impl Registers {
    // One move: an act, or none where there is more to do first. So far each move is an act: those that only compute come with putting documents, and
    // the definition of a step, `moves`, has their case already. Which move it is stands in the phase, a number of memory: between steps the engine has
    // nothing but its memory, so no function can be kept there.
    #[tactic(auto, using(crate::proofs::Stepping::move_is), unfolding(crate::specs::Entry::ActTold))]
    fn one_move(&mut self, out: &mut [u8]) -> Option<Told>
        requires { 512 ≤ length out.old }
        ensures { (rest : List ℕ) → MoveSays self.old rest out.old result self.new out.new }
    {
        let (phase, act) = match self.phase {
            Phase::Idle => (Phase::Idle, Told::Done),
            Phase::First => (Phase::First, Told::Read(0)),
            Phase::Second => (Phase::Second, Told::Read(1)),
            Phase::Refusing => (Phase::Idle, Told::No(self.reply)),
            Phase::Flushing => (Phase::Heading, Told::Flush),
            Phase::Heading => (Phase::Settling, self.ledger.write_next(out)),
            Phase::Settling => (Phase::Finishing, Told::Flush),
            Phase::Finishing => (Phase::Idle, Told::Done),
        };
        self.phase = phase;
        Some(act)
    }

    // Moves until there is an act; a flush if there was none for long, which changes nothing that anyone can see. It is a loop: with `find_map`, which
    // was tried, it stayed open that the row is long enough for the closure's move, since its length is not known through what a closure holds, and what
    // all the moves come to. The row is a slice here and in a move, though only the page at its front is written: what an act leaves is said of the
    // whole row.
    fn run(&mut self, out: &mut [u8]) -> Told
        requires { 512 ≤ length out.old }
        ensures { (rest : List ℕ) → MovesSay self.old rest out.old result self.new out.new }
    {
        for _ in 0..MOST_MOVES {
            if let Some(act) = self.one_move(out) {
                return act;
            }
        }
        Told::Flush
    }
}

// One step: takes in an event, and answers the next act.
#[tactic(auto, using(crate::proofs::Whole::telling))]
pub fn tell(memory: &mut [u64], event: Event<'_>, out: &mut [u8]) -> Told
    ensures says { TellSays memory.old (event_told event.entry) out.old (tell_fits memory.old out.old) result memory.new out.new }
    ensures whole { Whole finding own }
{
    // No refusal has the number 0: this was no step.
    if memory.len() != CELLS || out.len() < ROW {
        return Told::No(0);
    }
    let mut registers = Registers::load(memory).take_in(event);
    let act = registers.run(out);
    registers.store(memory);
    act
}

// The same for a caller that has only numbers: 0 power with the number of pages, 1 a command, 2 a page, 3 go on. A kind stays a number here, since the
// interface of a step is fixed.
#[tactic(auto, using(crate::proofs::Whole::telling), unfolding(crate::specs::Entry::StepSays))]
pub fn step(memory: &mut [u64], kind: u64, bytes: &[u8], out: &mut [u8]) -> Told
    ensures says { StepSays memory.old kind bytes.now out.old (step_fits memory.old kind bytes.now out.old) result memory.new out.new }
    ensures whole { Whole finding own }
{
    match heard(kind, bytes) {
        Some(event) => tell(memory, event, out),
        None => Told::No(0),
    }
}
