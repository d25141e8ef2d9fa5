// A device of pages in memory, for tests. It loses nothing but with the process.
ghost use Rattle.std.specs.Prelude.{◌≡◌, ℕ, ◌<◌, ◌≤◌, List, length, IfOk};
ghost use Rattle.pages.specs.Device.{all_written, blank};

use crate::devices::{Device, Page};
use crate::faults::Fault;
use std::alloc::{AllocError, Global};

#[derive(Drop)]
pub struct MemoryDevice {
    pages: Vec<Page>,
}

impl MemoryDevice {
    // So many pages, all 0.
    pub fn new(heap: Global, count: usize) -> Result<MemoryDevice, AllocError>
        ensures { IfOk result (λ d. d.pages.items ≡ blank count) }
    {
        let pages = vec![in heap; [0u8; 512]; count]?;
        Ok(MemoryDevice { pages })
    }
}

impl Device for MemoryDevice {
    // A write does not wait here, which a reader cannot tell.
    ghost stands = { λ m d. all_written d.pages d.queue ≡ m.pages.items };

    fn pages(&self) -> u64 {
        self.pages.len() as u64
    }

    fn read(&mut self, page: u64, into: &mut Page) -> Result<(), Fault> {
        let found = self
            .pages
            .get(page as usize)
            .ok_or(Fault::NoSuchPage(page))?;
        *into = *found;
        Ok(())
    }

    fn write(&mut self, page: u64, from: &Page) -> Result<(), Fault> {
        let found = self
            .pages
            .get_mut(page as usize)
            .ok_or(Fault::NoSuchPage(page))?;
        *found = *from;
        Ok(())
    }

    fn flush(&mut self) -> Result<(), Fault> {
        Ok(())
    }
}
