// Questions: read from their bytes, and the best of the hits that they have.
#![tactic(auto)]

mod field;
pub mod hits;
mod kind;
pub mod picking;
mod reader;
mod refusal;

pub use field::{Field, UnknownField};
pub use kind::{Kind, UnknownKind};
pub use picking::best;
pub use reader::{Question, is_word, read_bytes, read_number, read_question, read_within};
pub use refusal::Refusal;
