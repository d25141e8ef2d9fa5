// What people and programs at the other end of a line type and read: bytes as hexadecimal digits, commands as words.
#![tactic(auto)]

mod answers;
mod digits;
mod opening;
mod spelling;
mod typed;

pub use answers::answer;
pub use digits::{BadHex, bytes_of_hex, hex_of};
pub use opening::{exit_code, open_engine, report};
pub use spelling::{
    command_bytes, spell_ask, spell_count, spell_fetch, spell_note, spell_put, spell_remove,
};
pub use typed::{Misread, Request, Word, read_request};

#[cfg(test)]
mod tests;
