// Which documents match a question, read from their texts: the statements made executable.
#![tactic(auto)]

mod query;
mod texts;

pub use query::{Field, Query};
pub use texts::{has_beginning, has_near, has_phrase, has_word};

#[cfg(test)]
mod tests;
