use super::*;
use std::test::Fail;

// A command of a length that no command has.
const NO_COMMAND: [u8; 2] = [3, 3];

fn small(rt: &HostRuntime) -> Result<Engine<MemoryDevice>, Fault> {
    let device = MemoryDevice::new(rt.alloc(), 256)?;
    Engine::start(rt.alloc(), device)
}

#[test]
fn refuses_what_is_no_command(rt: HostRuntime) -> Result<(), Fail> {
    let mut engine = small(&rt)?;
    let ran = engine.command(&NO_COMMAND, MOST_ACTS)?;
    assert_eq!(rt; ran.end, End::Refused(1));
    assert_eq!(rt; ran.pages, 0);
    assert!(rt; ran.rows.is_empty());
    Ok(())
}

#[test]
fn stops_before_the_first_act(rt: HostRuntime) -> Result<(), Fail> {
    let mut engine = small(&rt)?;
    let ran = engine.command(&NO_COMMAND, 0)?;
    assert_eq!(rt; ran.end, End::Stopped);
    assert!(rt; ran.ended().is_err());
    Ok(())
}

#[test]
fn reads_what_was_written(rt: HostRuntime) -> Result<(), Fail> {
    let mut device = MemoryDevice::new(rt.alloc(), 2)?;
    let mut page = [7u8; 512];
    device.write(1, &page)?;
    device.read(0, &mut page)?;
    assert_eq!(rt; page[511], 0);
    device.read(1, &mut page)?;
    assert_eq!(rt; page[511], 7);
    assert!(rt; device.read(2, &mut page).is_err());
    Ok(())
}

#[test]
fn sizes_of_files(rt: HostRuntime) {
    assert_eq!(rt; pages_of_size(256 * 512), Some(256));
    assert_eq!(rt; pages_of_size(255 * 512), None);
    assert_eq!(rt; pages_of_size(256 * 512 + 1), None);
    assert!(rt; found_pages(256 * 512, Some(257)).is_err());
}
