// A device of pages, as the engine's driver wants it.
ghost use Rattle.std.specs.Prelude.{◌≡◌, ℕ, length};
ghost use Rattle.pages.specs.Device.{Device as Kept};
ghost use Rattle.driver.specs.Stands.{Reads, Writes, Flushes};

use crate::faults::Fault;

pub type Page = [u8; 512];

pub trait Device {
    // Which pages, and which writes that wait, this device may stand for. Of a file it is not known, since others may write to it: it stands for none.
    ghost stands: { Self → Kept → Type 0 };

    // How many pages there are.
    fn pages(&self) -> u64
        ensures { (d : Kept) → stands self.now d → result ≡ length d.pages };

    // Reads a page. One that is not there is a fault.
    fn read(&mut self, page: u64, into: &mut Page) -> Result<(), Fault>
        ensures { (d : Kept) → stands self.old d → Reads (stands self.new) d page into.new result };

    // Writes a page, which waits until a flush. One that is not there is a fault.
    fn write(&mut self, page: u64, from: &Page) -> Result<(), Fault>
        ensures { (d : Kept) → stands self.old d → Writes (stands self.new) d page from.now result };

    // Makes all that was written outlast a loss of power.
    fn flush(&mut self) -> Result<(), Fault>
        ensures { (d : Kept) → stands self.old d → Flushes (stands self.new) d result };
}
