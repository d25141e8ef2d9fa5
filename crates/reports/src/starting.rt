// Coming up: the two head pages are read, and the head that counts says what is kept.
ghost use Rattle.std.specs.Prelude.{◌≡◌};
ghost use Rattle.pages.specs.Head.{read_head, chosen};
ghost use Rattle.pages.specs.Lists.{pick};
ghost use Rattle.pages.specs.Device.{a_page};
ghost use Rattle.reports.specs.Machine.{no_standing, waking, up, page_told, found_first, first_found};

use crate::refusal::Refusal;
use crate::registers::{Ledger, Phase, Registers};
use pages::{Head, Root, Standing};

// No device has more pages.
const MOST_PAGES: u64 = 16_777_216;

// While no head is found, the page on which it stands is 2: the phase that follows takes it, like every number but 0, for "none found on the first
// page". It is no `Option`: a step does with each memory what the definition says, also with one that has another number here, and every move after the
// two head pages would have to ask for a head that is there.
fn no_standing() -> Standing
    ensures { result ≡ no_standing }
{
    Standing {
        page: 2,
        head: Head::default(),
    }
}

// The registers where power comes: nothing is known yet but how many pages there are. Any number may be told, and nothing is refused here: for more
// than any device has stands 0, a device on which nothing has room.
pub(crate) fn wake(n: u64) -> Registers
    ensures { result ≡ waking n }
{
    let pages = if n <= MOST_PAGES { n } else { 0 };
    Registers {
        phase: Phase::First,
        reply: 0,
        ledger: Ledger {
            pages,
            end: 0,
            stands: no_standing(),
            coming: Root::default(),
        },
    }
}

impl Registers {
    // Takes in a page that was wanted, the first head page or the second. What is no page is not taken for one.
    pub(crate) fn take_page(self, page: &[u8]) -> Registers
        ensures { result ≡ pick (a_page page.now) (page_told self.phase self page.now) self }
    {
        if page.len() != 512 {
            return self;
        }
        match self.phase {
            Phase::First => self.first_head(page),
            Phase::Second => self.second_head(page),
            _ => self,
        }
    }

    // The head on the first page is kept beside what comes from the second.
    fn first_head(self, page: &[u8]) -> Registers
        ensures { result ≡ page_told Phase.First self page.now }
    {
        let stands = pages::read_head(page).map_or(
            no_standing(),
            |head| Standing { page: 0, head },
        );
        let ledger = Ledger {
            stands,
            ..self.ledger
        };
        Registers {
            phase: Phase::Second,
            ledger,
            ..self
        }
    }

    // With the head on the second page it is known which one counts. A device that has neither is refused.
    fn second_head(self, page: &[u8]) -> Registers
        ensures { result ≡ page_told Phase.Second self page.now }
    {
        let held = self.ledger.stands;
        let first = (held.page == 0).then_some(held.head);
        let Some(stands) = pages::choose(first, pages::read_head(page)) else {
            return self.refusing(Refusal::NoHead);
        };
        let end = if stands.head.sequence == 0 {
            2
        } else {
            stands.head.end
        };
        let ledger = Ledger {
            end,
            stands,
            coming: stands.head.root,
            ..self.ledger
        };
        Registers {
            phase: Phase::Finishing,
            ledger,
            ..self
        }
    }
}
