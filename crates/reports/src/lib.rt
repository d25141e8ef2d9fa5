// The engine as a machine: one step at a time, told one thing and doing one act.
#![tactic(auto)]

mod events;
mod machine;
mod reader;
mod refusal;
mod registers;
mod starting;
pub mod theorems;
mod verb;

pub use events::Event;
pub use machine::{step, tell};
pub use reader::{Request, read_command};
pub use refusal::Refusal;
pub use registers::CELLS;
pub use verb::{UnknownVerb, Verb};

// What one step of the engine does, and what the world outside is to do about it.
#[derive(Clone, Copy)]
pub enum Told {
    // Read this page, and hand it to the next step.
    Read(u64),
    // Write the page at the front of the lent row to this page of the device.
    Write(u64),
    // Bring all that was written onto the pages.
    Flush,
    // Show a row of so many bytes, at the front of the lent row.
    Shows(u64),
    // The command is done.
    Done,
    // The command is refused, with this number: that of a `Refusal`, or whatever stands for one in a memory that the engine did not make.
    No(u64),
}
