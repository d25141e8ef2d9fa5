// A document on pages: its header, its pages, and how many pages documents take.
#![tactic(auto)]

mod layout;
mod texts;
mod theorems;

pub use layout::{Content, Header, Unfit, page_count, read_header};
pub use texts::Texts;
pub use theorems::{pages_stand, room_suffices};
