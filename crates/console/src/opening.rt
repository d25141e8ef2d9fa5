// What both programs begin with: a file of pages, named by their arguments, and an engine that came up on it; and how they end.
ghost use Rattle.std.specs.Prelude.{◌≡◌, cond, is_ok};
ghost use Rattle.std.specs.Process.{exit_status};

use anyhow::{Context, ensure};
use driver::{Engine, FileDevice};
use std::env;
use std::process::ExitCode;

// Prints why a program ended, if it did not end well, and hands it on.
pub fn report(rt: &HostRuntime, res: anyhow::Result<()>) -> anyhow::Result<()>
    ensures { result ≡ res }
{
    if let Err(error) = &res {
        let _ = eprintln!(rt; "error: {error}");
    }
    res
}

// The status of a program that ended so. What was wrong is printed here, and not once more by the runtime.
pub fn exit_code(rt: &HostRuntime, res: anyhow::Result<()>) -> ExitCode
    ensures { exit_status result ≡ cond (is_ok res) 0 1 }
{
    match report(rt, res) {
        Ok(()) => ExitCode::SUCCESS,
        // The error itself was printed by `report`, and a status is all that is left to say of it.
        Err(_) => ExitCode::FAILURE,
    }
}

// The engine on the file FILE of the arguments FILE [PAGES].
pub fn open_engine(rt: &HostRuntime) -> anyhow::Result<Engine<FileDevice>> {
    let mut args = env::args(rt)?.skip(1);
    let file = args.next().context("expected FILE [PAGES]")?;
    let pages = args
        .next()
        .map(|text| read_pages(text.as_str()))
        .transpose()?;
    ensure!(args.next().is_none(), "expected FILE [PAGES], and no more");
    let device = FileDevice::open(rt, file.as_str(), pages)?;
    Ok(Engine::start(rt.alloc(), device)?)
}

// How many pages are asked for. Whether so many are possible is seen where the file is opened.
fn read_pages(text: &str) -> anyhow::Result<u64> {
    text.parse::<u64>()
        .ok()
        .context("expected PAGES to be a number, from 256 to 16777216")
}
