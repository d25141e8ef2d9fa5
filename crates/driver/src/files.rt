// A device of pages in a file.
ghost use Rattle.std.specs.Prelude.{◌≤◌, MatchOption};
ghost use Rattle.driver.specs.Sizes.{Holds, Fit, Found};

use crate::devices::{Device, Page};
use crate::faults::Fault;
use std::fs::{File, OpenOptions};
use std::io::{Read, Seek, SeekFrom, Write};
use std::{fs, io};
use thiserror::Error;

// So many pages there are at least and at most.
const FEWEST: u64 = 256;

const MOST: u64 = 16_777_216;

// Why a file cannot serve as a device.
#[derive(Clone, Copy, Debug, Error)]
pub enum BadFile {
    // There is none, and it was not said how many pages to make.
    #[error("there is no such file: say how many pages it is to have, 256 to 16777216")]
    Missing,
    // It has so many bytes, and not 512 for each of 256 to 16,777,216 pages.
    #[error("the file has {0} bytes, which is not 512 for each of 256 to 16777216 pages")]
    Size(u64),
    // So many pages were asked for, and not 256 to 16,777,216.
    #[error("{0} pages were asked for, which is not 256 to 16777216")]
    Asked(u64),
    // It has another number of pages than was asked for.
    #[error("the file has {found} pages, and {asked} were asked for")]
    Other { found: u64, asked: u64 },
    // It cannot be reached, as the system says.
    #[error("the file cannot be opened: {0}")]
    Io(#[from] io::Error),
}

// A file of pages that is open, and how many it has.
#[derive(Drop)]
pub struct FileDevice {
    file: File,
    pages: u64,
    ghost few: { pages ≤ 16777216 },
}

impl FileDevice {
    // The pages of this file. If there is none it is made, with as many pages as were asked for, all 0.
    pub fn open(rt: &HostRuntime, path: &str, asked: Option<u64>) -> Result<FileDevice, BadFile> {
        if let Some(pages) = asked {
            pages_of_size(pages.saturating_mul(512)).ok_or(BadFile::Asked(pages))?;
        }
        if fs::exists(rt, path)? {
            return FileDevice::open_old(rt, path, asked);
        }
        FileDevice::make(rt, path, asked.ok_or(BadFile::Missing)?)
    }

    // The pages of a file that is there, if they are as many as were asked for.
    fn open_old(rt: &HostRuntime, path: &str, asked: Option<u64>) -> Result<FileDevice, BadFile> {
        let file = OpenOptions::new().read(true).write(true).open(rt, path)?;
        let pages = found_pages(file.metadata()?.len(), asked)?;
        Ok(FileDevice { file, pages })
    }

    // A file that could not be given its size is no device, and is removed again.
    fn make(rt: &HostRuntime, path: &str, pages: u64) -> Result<FileDevice, BadFile>
        requires { pages ≤ 16777216 }
    {
        let file = File::create_new(rt, path)?;
        if let Err(error) = file.set_len(pages * 512) {
            fs::remove_file(rt, path)?;
            return Err(BadFile::Io(error));
        }
        file.sync_all()?;
        Ok(FileDevice { file, pages })
    }

    // Goes to where a page begins in the file, so that it is read or written there.
    fn seek(&mut self, page: u64) -> Result<(), Fault> {
        if page >= self.pages {
            return Err(Fault::NoSuchPage(page));
        }
        self.file.seek(SeekFrom::Start(page * 512))?;
        Ok(())
    }
}

impl Device for FileDevice {
    ghost stands = { λ _ _. ⊥ };

    fn pages(&self) -> u64 {
        self.pages
    }

    fn read(&mut self, page: u64, into: &mut Page) -> Result<(), Fault> {
        self.seek(page)?;
        Ok(self.file.read_exact(into)?)
    }

    fn write(&mut self, page: u64, from: &Page) -> Result<(), Fault> {
        self.seek(page)?;
        Ok(self.file.write_all(from)?)
    }

    fn flush(&mut self) -> Result<(), Fault> {
        Ok(self.file.sync_data()?)
    }
}

// How many pages a file of so many bytes has, if it can be a device.
pub fn pages_of_size(size: u64) -> Option<u64>
    ensures { MatchOption result (Fit size → ⊥) (Holds size) }
{
    let pages = size / 512;
    (size % 512 == 0 && (FEWEST..=MOST).contains(&pages)).then_some(pages)
}

// How many pages a file of so many bytes has, if that is what was asked for.
pub fn found_pages(size: u64, asked: Option<u64>) -> Result<u64, BadFile>
    ensures { Found size asked result }
{
    let found = pages_of_size(size).ok_or(BadFile::Size(size))?;
    match asked {
        Some(asked) if asked != found => Err(BadFile::Other { found, asked }),
        _ => Ok(found),
    }
}
