// Drives the engine on a file of pages, by commands in hexadecimal digits, one to a line.
#![tactic(auto)]

use console::{bytes_of_hex, exit_code, hex_of, open_engine};
use driver::{End, Engine, FileDevice, MOST_ACTS};
use std::io::{BufRead, BufReader};
use std::process::ExitCode;

fn main(rt: HostRuntime) -> ExitCode {
    exit_code(&rt, run(&rt))
}

// Reads the lines one by one, and says the command of each to the engine; a line that is none is told of by its number.
fn run(rt: &HostRuntime) -> anyhow::Result<()> {
    let heap = rt.alloc();
    let mut engine = open_engine(rt)?;
    let lines = BufReader::new(heap, rt.stdin())?.split(heap, b'\n');
    for (before, line) in lines.enumerate() {
        let line = line?;
        let number = before.saturating_add(1);
        let text = line.as_slice().trim_ascii();
        if text.is_empty() {
            println!(rt; "error line {number}: expected a command in hexadecimal digits")?;
            continue;
        }
        match bytes_of_hex(heap, text) {
            Ok(bytes) => command(rt, &mut engine, bytes.as_slice())?,
            Err(bad) => println!(rt; "error line {number}: {bad}")?,
        }
    }
    Ok(())
}

// Says a command to the engine, and prints what it shows and how it ended.
fn command(rt: &HostRuntime, engine: &mut Engine<FileDevice>, bytes: &[u8]) -> anyhow::Result<()> {
    let ran = engine.command(bytes, MOST_ACTS)?.ended()?;
    for row in ran.rows.as_slice() {
        let text = hex_of(rt.alloc(), row.as_slice())?;
        if text.is_empty() {
            println!(rt; "shows")?;
        } else {
            println!(rt; "shows {text}")?;
        }
    }
    let pages = ran.pages;
    match ran.end {
        End::Refused(number) => println!(rt; "refused {number} {pages}")?,
        _ => println!(rt; "done {pages}")?,
    }
    Ok(())
}
