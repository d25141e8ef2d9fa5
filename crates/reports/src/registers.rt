// The registers of the machine, and where they stand in its memory.
#![tactic(auto, using(crate::proofs::Fronts::fronts))]

ghost use Rattle.std.specs.Prelude.{◌≡◌, ◌≤◌, length};
ghost use Rattle.pages.specs.Places.{written};
ghost use Rattle.reports.specs.Registers.{phase_number, phase_of, registers_in, register_numbers, at_phase, refusal_next};

use crate::refusal::Refusal;
use pages::{Head, Root, Standing};

// How many numbers the machine's memory has.
pub const CELLS: usize = 262_144;

// How many of them are registers; the regions stand behind these.
pub(crate) const REGISTERS: usize = 44;

// What the machine is at.
#[derive(Clone, Copy)]
pub enum Phase {
    // At rest: there is nothing to do.
    Idle,
    // Power came, and the first head page is wanted.
    First,
    // The second head page is wanted.
    Second,
    // A command is about to be refused, with the number in `reply`.
    Refusing,
    // A commit: what was written has to be on the pages before the head is.
    Flushing,
    // A commit: the next head is to be written.
    Heading,
    // A commit: the head has to be on its page.
    Settling,
    // What was asked for is done.
    Finishing,
}

impl From<Phase> for u64 {
    ghost from_gives = { λ phase n. n ≡ phase_number phase };

    // The number that stands for a phase in memory.
    fn from(phase: Phase) -> u64 {
        phase as u64
    }
}

impl From<u64> for Phase {
    ghost from_gives = { λ n phase. phase ≡ phase_of n };

    // The phase that a number of memory stands for; at rest for all others.
    fn from(number: u64) -> Phase {
        match number {
            1 => Phase::First,
            2 => Phase::Second,
            3 => Phase::Refusing,
            4 => Phase::Flushing,
            5 => Phase::Heading,
            6 => Phase::Settling,
            7 => Phase::Finishing,
            _ => Phase::Idle,
        }
    }
}

// What is kept and where: the head that stands, with the root that is asked; the root that is coming; and how far the half in use is filled.
#[derive(Clone, Copy)]
pub struct Ledger {
    // How many pages the device has.
    pub pages: u64,
    // The first page of the half in use that nothing is written to.
    pub end: u64,
    // The head that counts, and the page that it stands on.
    pub stands: Standing,
    // The root that is asked from the next commit on.
    pub coming: Root,
}

// All that the machine knows between two steps: what it is at, why it is about to refuse, and what is kept and where.
#[derive(Clone, Copy)]
pub struct Registers {
    pub phase: Phase,
    // The number of the refusal that is to come. Memory that the engine did not make may have any number here, and it is told as it stands.
    pub reply: u64,
    pub ledger: Ledger,
}

impl From<[u64; REGISTERS]> for Registers {
    ghost from_gives = { λ numbers registers. registers ≡ registers_in numbers };

    fn from(numbers: [u64; REGISTERS]) -> Registers {
        let [phase, reply, pages, end, page, ..] = numbers;
        let head = <[u64; 21]>::try_from(&numbers[5..26]).unwrap();
        let coming = <[u64; 18]>::try_from(&numbers[26..]).unwrap();
        Registers {
            phase: Phase::from(phase),
            reply,
            ledger: Ledger {
                pages,
                end,
                stands: Standing {
                    page,
                    head: Head::from(head),
                },
                coming: Root::from(coming),
            },
        }
    }
}

impl From<Registers> for [u64; REGISTERS] {
    ghost from_gives = { λ registers numbers. numbers ≡ register_numbers registers };

    fn from(registers: Registers) -> [u64; REGISTERS] {
        let Registers {
            phase,
            reply,
            ledger,
        } = registers;
        let mut numbers = [0; REGISTERS];
        numbers[..5].copy_from_slice(&[
            u64::from(phase),
            reply,
            ledger.pages,
            ledger.end,
            ledger.stands.page,
        ]);
        numbers[5..26].copy_from_slice(&<[u64; 21]>::from(ledger.stands.head));
        numbers[26..].copy_from_slice(&<[u64; 18]>::from(ledger.coming));
        numbers
    }
}

impl Registers {
    // The registers as they stand at the front of memory.
    pub(crate) fn load(memory: &[u64]) -> Registers
        requires { 44 ≤ length memory.now }
        ensures { result ≡ registers_in memory.now }
    {
        let numbers = <[u64; REGISTERS]>::try_from(&memory[..REGISTERS]).unwrap();
        Registers::from(numbers)
    }

    // Puts the registers back to the front of memory.
    pub(crate) fn store(self, memory: &mut [u64])
        requires { 44 ≤ length memory.old }
        ensures { memory.new ≡ written memory.old 0 (register_numbers self) }
    {
        memory[..REGISTERS].copy_from_slice(&<[u64; REGISTERS]>::from(self));
    }

    // The same registers at another phase.
    pub(crate) fn at(self, phase: Phase) -> Registers
        ensures { result ≡ at_phase phase self }
    {
        Registers { phase, ..self }
    }

    // About to refuse, for this reason.
    pub(crate) fn refusing(self, refusal: Refusal) -> Registers
        ensures { result ≡ refusal_next refusal self }
    {
        Registers {
            phase: Phase::Refusing,
            reply: u64::from(refusal),
            ..self
        }
    }
}
