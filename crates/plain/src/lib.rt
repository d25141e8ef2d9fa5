// The plain engine: all documents in lists, and every command goes through all of them. It answers as the statements say, by definition; what is to be
// quick is compared with it.
#![tactic(auto)]

mod asking;
mod document;
mod engine;
mod lists;
mod weights;

pub use document::Document;
pub use engine::{Answer, Plain};

#[cfg(test)]
mod tests;
