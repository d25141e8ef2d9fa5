use super::*;
use std::alloc::Global;
use std::test::Fail;

fn command(heap: Global, line: &str) -> Result<Vec<u8>, Fail> {
    let request = read_request(heap, line)?;
    Ok(command_bytes(heap, &request)?.ok_or("no command")?)
}

#[test]
fn hex_both_ways(rt: HostRuntime) -> Result<(), Fail> {
    let heap = rt.alloc();
    assert_eq!(rt; hex_of(heap, &[0, 171, 255])?.as_str(), "00abff");
    assert_eq!(rt;
        bytes_of_hex(heap, b"00aBfF")?.as_slice(),
        [0, 171, 255].as_slice()
    );
    assert_eq!(rt;
        bytes_of_hex(heap, b"00g").err(),
        Some(BadHex::NotADigit(2))
    );
    assert_eq!(rt; bytes_of_hex(heap, b"00a").err(), Some(BadHex::Odd(3)));
    Ok(())
}

#[test]
fn commands_as_typed(rt: HostRuntime) -> Result<(), Fail> {
    let heap = rt.alloc();
    assert_eq!(rt; command(heap, "note")?.as_slice(), [3].as_slice());
    assert_eq!(rt;
        command(heap, " remove 3 ")?.as_slice(),
        [2, 0, 0, 0, 0, 0, 0, 0, 3].as_slice()
    );
    let put = [
        1, 0, 0, 0, 0, 0, 0, 0, 3, 0, 0, 0, 0, 0, 0, 0, 1, 84, 0, 0, 0, 0, 0, 0, 0, 2, 98, 46,
    ];
    assert_eq!(rt; command(heap, "put 3 T | b.")?.as_slice(), put.as_slice());
    let ask = [
        4, 0, 0, 0, 0, 0, 0, 0, 5, 5, 1, 0, 0, 0, 0, 0, 0, 0, 0, 2, 111, 105, 1, 1, 0, 0, 0, 0, 0,
        0, 0, 1, 120,
    ];
    assert_eq!(rt;
        command(heap, "ask 5 Oi title:x")?.as_slice(),
        ask.as_slice()
    );
    Ok(())
}

// No command that is read has such a word, but whoever makes one has it spelled as it is.
#[test]
fn any_byte_for_a_field(rt: HostRuntime) -> Result<(), Fail> {
    let heap = rt.alloc();
    let word = Word {
        field: 7,
        letters: Vec::from_slice(heap, b"x")?,
    };
    let ask = [4, 0, 0, 0, 0, 0, 0, 0, 5, 1, 7, 0, 0, 0, 0, 0, 0, 0, 1, 120];
    assert_eq!(rt; spell_ask(heap, 5, &[word])?.as_slice(), ask.as_slice());
    Ok(())
}

#[test]
fn misread_lines(rt: HostRuntime) {
    let heap = rt.alloc();
    assert!(rt; read_request(heap, "fly").is_err());
    assert!(rt; read_request(heap, "remove x").is_err());
    assert!(rt; read_request(heap, "put 3 no bar").is_err());
    assert!(rt; read_request(heap, "ask 0 bearing").is_err());
    assert!(rt; read_request(heap, "ask 1001 bearing").is_err());
    assert!(rt; read_request(heap, "ask 5 oil-filter").is_err());
    assert!(rt; read_request(heap, "count").is_err());
    assert!(rt; read_request(heap, "count a b c d e f g h i j k l m n o p").is_ok());
    assert!(rt; read_request(heap, "count a b c d e f g h i j k l m n o p q").is_err());
}
