// What can go wrong while the engine is driven. None of it is a refusal of the engine's: those are told as such.
use std::alloc::{AllocError, AllocFailed};
use std::io;
use thiserror::Error;

#[derive(Clone, Copy, Debug, Error)]
pub enum Fault {
    // The device failed, as it says.
    #[error("the pages could not be read or written: {0}")]
    Device(#[from] io::Error),
    // The engine asked for a page that the device does not have.
    #[error("the engine asked for page {0}, which is not there")]
    NoSuchPage(u64),
    // The engine showed so many bytes, more than it was lent.
    #[error("the engine showed {0} bytes, which is too many")]
    TooLong(u64),
    // The engine refused with a number that is no refusal's: these are 1 to 999.
    #[error("the engine refused with {0}, which is no refusal")]
    NoRefusal(u64),
    // The engine refused to start, by this number.
    #[error("the engine refused to start, with {0}")]
    NoStart(u64),
    // The engine went on for 2^40 acts.
    #[error("the engine did not come to an end")]
    Endless,
    #[error("there is no memory left")]
    NoMemory,
}

impl From<AllocError> for Fault {
    fn from(_error: AllocError) -> Fault {
        Fault::NoMemory
    }
}

impl<T: Drop> From<AllocFailed<T>> for Fault {
    fn from(_refused: AllocFailed<T>) -> Fault {
        Fault::NoMemory
    }
}
