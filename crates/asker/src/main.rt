// The engine for a person at a keyboard.
#![tactic(auto)]

use console::{Request, answer, command_bytes, exit_code, open_engine, read_request};
use driver::{Engine, FileDevice, MOST_ACTS};
use std::io::{BufRead, BufReader, Write};
use std::process::ExitCode;

const HELP: &str = "put NUMBER TITLE | BODY    keeps a document, or replaces the one of that number
remove NUMBER              removes a document
note                       makes what was put and removed be found from now on
ask MOST WORD..            the best documents that have all of the words, with their points
count WORD..               how many documents have all of the words
fetch NUMBER               the title and the body of a document
help                       prints this
quit                       ends
A word may begin with title: or body: to be looked for only there.";

fn main(rt: HostRuntime) -> ExitCode {
    exit_code(&rt, run(&rt))
}

// Reads what is typed line by line, until quit or the end, and says each request to the engine.
fn run(rt: &HostRuntime) -> anyhow::Result<()> {
    let heap = rt.alloc();
    let mut engine = open_engine(rt)?;
    for line in BufReader::new(heap, rt.stdin())?.split(heap, b'\n') {
        let line = line?;
        let Ok(text) = std::str::from_utf8(line.as_slice()) else {
            println!(rt; "expected text in UTF-8")?;
            continue;
        };
        match read_request(heap, text) {
            Ok(Request::Quit) => break,
            Ok(request) => say(rt, &mut engine, &request)?,
            Err(misread) => println!(rt; "{misread}")?,
        }
    }
    Ok(())
}

// Says to the engine what is asked for, and prints how it went.
fn say(
    rt: &HostRuntime,
    engine: &mut Engine<FileDevice>,
    request: &Request<'_>,
) -> anyhow::Result<()> {
    let Some(bytes) = command_bytes(rt.alloc(), request)? else {
        println!(rt; "{HELP}")?;
        return Ok(());
    };
    let ran = engine.command(bytes.as_slice(), MOST_ACTS)?.ended()?;
    let text = answer(rt.alloc(), request, &ran)?;
    rt.stdout().write_all(text.as_slice())?;
    Ok(())
}
