// Pages of 512 bytes, the numbers on them, and pages in memory; the head of a device, and which one counts after a stop.
#![tactic(auto)]

mod cells;
mod misfit;
mod numbers;
mod roots;
mod spelled;

pub use cells::{
    bytes_in, clear, give_bytes, give_page, hold_bytes, is_page, take_bytes, take_page,
};
pub use misfit::Misfit;
pub use numbers::{are_bytes, number, number_at, put_number};
pub use roots::{
    Head, Root, Segment, Standing, choose, commit_is_atomic, heads_are_kept, read_head, write_head,
};
