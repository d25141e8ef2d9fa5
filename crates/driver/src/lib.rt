// Drives the engine: tells it what happens, and does on a device of pages what it asks for.
#![tactic(auto)]

mod devices;
mod faults;
mod files;
mod machine;
mod memory;

pub use devices::{Device, Page};
pub use faults::Fault;
pub use files::{BadFile, FileDevice, found_pages, pages_of_size};
pub use machine::{End, Engine, MOST_ACTS, Ran};
pub use memory::MemoryDevice;

#[cfg(test)]
mod tests;
