// Commands as bytes: each kind is read, and each way of being no command is refused.
#![tactic(auto)]

#[cfg(test)]
mod tests {
    use reports::{Request, UnknownVerb, Verb, read_command};
    use std::alloc::{AllocError, Global};
    use std::iter;
    use std::test::Fail;

    // A part of a command: a byte, a number in eight bytes, or so many times one byte with their count before them.
    #[derive(Clone, Copy)]
    enum Part {
        Byte(u8),
        Number(u64),
        Text(u8, u64),
    }

    use Part::{Byte, Number, Text};

    impl Part {
        // Adds the bytes that spell it.
        fn spell(self, bytes: &mut Vec<u8>) -> Result<(), AllocError> {
            match self {
                Byte(byte) => bytes.extend_from_slice(&[byte]),
                Number(n) => bytes.extend_from_slice(&n.to_be_bytes()),
                Text(byte, count) => {
                    bytes.extend_from_slice(&count.to_be_bytes())?;
                    bytes.extend(iter::repeat_n(byte, count as usize))
                }
            }
        }
    }

    fn spelled(heap: Global, parts: &[Part]) -> Result<Vec<u8>, AllocError> {
        let mut bytes = Vec::new(heap);
        for part in parts {
            part.spell(&mut bytes)?;
        }
        Ok(bytes)
    }

    // The kind of the command that is read, by the byte that stands first in it; none if no command is.
    fn kind(bytes: &[u8]) -> Option<u8> {
        let verb = match read_command(bytes)? {
            Request::Put { .. } => Verb::Put,
            Request::Remove(_) => Verb::Remove,
            Request::Note => Verb::Note,
            Request::Ask(_, _) => Verb::Ask,
            Request::Count(_) => Verb::Count,
            Request::Fetch(_) => Verb::Fetch,
            Request::Words(_, _) => Verb::Words,
            Request::Sweep => Verb::Sweep,
        };
        Some(u8::from(verb))
    }

    fn read(heap: Global, parts: &[Part]) -> Result<Option<u8>, AllocError> {
        let bytes = spelled(heap, parts)?;
        Ok(kind(&bytes))
    }

    #[test]
    fn every_kind(rt: HostRuntime) -> Result<(), Fail> {
        let heap = rt.alloc();
        assert_eq!(rt;
            read(heap, &[Byte(1), Number(7), Text(b't', 3), Text(b'b', 0)])?,
            Some(1)
        );
        assert_eq!(rt; read(heap, &[Byte(2), Number(u64::MAX)])?, Some(2));
        assert_eq!(rt; read(heap, &[Byte(3)])?, Some(3));
        assert_eq!(rt;
            read(
                heap,
                &[Byte(4), Number(1000), Byte(1), Byte(2), Text(b'w', 64)],
            )?,
            Some(4)
        );
        assert_eq!(rt;
            read(heap, &[Byte(5), Byte(3), Byte(0), Text(0xff, 1)])?,
            Some(5)
        );
        assert_eq!(rt; read(heap, &[Byte(6), Number(0)])?, Some(6));
        assert_eq!(rt; read(heap, &[Byte(7), Text(b'0', 0), Number(1)])?, Some(7));
        assert_eq!(rt; read(heap, &[Byte(8)])?, Some(8));
        Ok(())
    }

    // What is handed on is what was spelled.
    #[test]
    fn parts_of_a_put(rt: HostRuntime) -> Result<(), Fail> {
        let bytes = spelled(
            rt.alloc(),
            &[Byte(1), Number(7), Text(b't', 3), Text(b'b', 5)],
        )?;
        // It is no `ok_or`, here and below: a command of another kind is no answer either.
        let Some(Request::Put { name, title, body }) = read_command(&bytes) else {
            return Err(Fail::new("no put"));
        };
        assert_eq!(rt; name, 7);
        assert!(rt; title == b"ttt".as_slice());
        assert!(rt; body == b"bbbbb".as_slice());
        Ok(())
    }

    // A question is handed on as it is spelled.
    #[test]
    fn parts_of_an_ask(rt: HostRuntime) -> Result<(), Fail> {
        let bytes = spelled(
            rt.alloc(),
            &[Byte(4), Number(12), Byte(1), Byte(0), Text(b'w', 1)],
        )?;
        let Some(Request::Ask(most, question)) = read_command(&bytes) else {
            return Err(Fail::new("no ask"));
        };
        assert_eq!(rt; most, 12);
        assert!(rt; question == b"\x01\x00\x00\x00\x00\x00\x00\x00\x00\x01w".as_slice());
        Ok(())
    }

    // The longest texts, and one byte more.
    #[test]
    fn texts(rt: HostRuntime) -> Result<(), Fail> {
        let heap = rt.alloc();
        assert_eq!(rt;
            read(
                heap,
                &[Byte(1), Number(7), Text(b't', 255), Text(b'b', 65_535)],
            )?,
            Some(1)
        );
        assert_eq!(rt;
            read(heap, &[Byte(1), Number(7), Text(b't', 256), Text(b'b', 5)])?,
            None
        );
        assert_eq!(rt;
            read(
                heap,
                &[Byte(1), Number(7), Text(b't', 3), Text(b'b', 65_536)],
            )?,
            None
        );
        Ok(())
    }

    // From 1 to 1,000 hits or words.
    #[test]
    fn limits(rt: HostRuntime) -> Result<(), Fail> {
        let heap = rt.alloc();
        assert_eq!(rt;
            read(heap, &[Byte(4), Number(0), Byte(1), Byte(0), Text(b'w', 1)])?,
            None
        );
        assert_eq!(rt;
            read(
                heap,
                &[Byte(4), Number(1001), Byte(1), Byte(0), Text(b'w', 1)],
            )?,
            None
        );
        assert_eq!(rt;
            read(heap, &[Byte(7), Text(b'w', 1), Number(1000)])?,
            Some(7)
        );
        assert_eq!(rt; read(heap, &[Byte(7), Text(b'w', 1), Number(0)])?, None);
        assert_eq!(rt; read(heap, &[Byte(7), Text(b'w', 1), Number(1001)])?, None);
        assert_eq!(rt; read(heap, &[Byte(7), Text(b'W', 1), Number(1)])?, None);
        Ok(())
    }

    // Words of 1 to 64 bytes, no capitals, in one of three fields.
    #[test]
    fn words(rt: HostRuntime) -> Result<(), Fail> {
        let heap = rt.alloc();
        assert_eq!(rt;
            read(heap, &[Byte(5), Byte(1), Byte(0), Text(b'w', 64)])?,
            Some(5)
        );
        assert_eq!(rt;
            read(heap, &[Byte(5), Byte(1), Byte(0), Text(b'w', 65)])?,
            None
        );
        assert_eq!(rt;
            read(heap, &[Byte(5), Byte(1), Byte(0), Text(b'w', 0)])?,
            None
        );
        assert_eq!(rt;
            read(heap, &[Byte(5), Byte(1), Byte(0), Text(b'W', 1)])?,
            None
        );
        assert_eq!(rt;
            read(heap, &[Byte(5), Byte(1), Byte(0), Text(b' ', 1)])?,
            None
        );
        assert_eq!(rt;
            read(heap, &[Byte(5), Byte(1), Byte(3), Text(b'w', 1)])?,
            None
        );
        assert_eq!(rt;
            read(heap, &[Byte(5), Byte(8), Byte(0), Text(b'w', 1)])?,
            None
        );
        Ok(())
    }

    // From 1 to 64 places apart.
    #[test]
    fn distances(rt: HostRuntime) -> Result<(), Fail> {
        let heap = rt.alloc();
        assert_eq!(rt;
            read(
                heap,
                &[Byte(5), Byte(4), Number(64), Text(b'v', 1), Text(b'w', 1)],
            )?,
            Some(5)
        );
        assert_eq!(rt;
            read(
                heap,
                &[Byte(5), Byte(4), Number(0), Text(b'v', 1), Text(b'w', 1)],
            )?,
            None
        );
        assert_eq!(rt;
            read(
                heap,
                &[Byte(5), Byte(4), Number(65), Text(b'v', 1), Text(b'w', 1)],
            )?,
            None
        );
        Ok(())
    }

    // What is read of a phrase of so many words.
    fn phrase(heap: Global, count: u64) -> Result<Option<u8>, AllocError> {
        let mut parts = [Byte(5), Byte(2), Byte(1), Number(count)].to_vec(heap)?;
        parts.extend(iter::repeat_n(Text(b'w', 2), count as usize))?;
        read(heap, &parts)
    }

    // What is read of a question of so many joins, and one word more.
    fn joined(heap: Global, joins: usize) -> Result<Option<u8>, AllocError> {
        let mut parts = [Byte(5)].to_vec(heap)?;
        parts.extend(iter::repeat_n(Byte(6), joins))?;
        for _ in 0..=joins {
            parts.extend_from_slice(&[Byte(1), Byte(0), Text(b'w', 1)])?;
        }
        read(heap, &parts)
    }

    // A phrase has 1 to 16 words. A question has at most 31 parts; with its joins the next more has 33.
    #[test]
    fn sizes(rt: HostRuntime) -> Result<(), Fail> {
        let heap = rt.alloc();
        assert_eq!(rt; phrase(heap, 16)?, Some(5));
        assert_eq!(rt; phrase(heap, 0)?, None);
        assert_eq!(rt; phrase(heap, 17)?, None);
        assert_eq!(rt; joined(heap, 15)?, Some(5));
        assert_eq!(rt; joined(heap, 16)?, None);
        Ok(())
    }

    // Cut short anywhere, down to nothing, it is no command.
    #[test]
    fn cut_short(rt: HostRuntime) -> Result<(), Fail> {
        let heap = rt.alloc();
        let bytes = spelled(heap, &[Byte(1), Number(7), Text(b't', 3), Text(b'b', 5)])?;
        let bytes = bytes.as_slice();
        assert_eq!(rt; kind(bytes), Some(1));
        // No iterator gives the fronts of a slice, so each is named by its length.
        for cut in 0..bytes.len() {
            assert_eq!(rt; kind(&bytes[..cut]), None);
        }
        Ok(())
    }

    // With one byte more, with a count that lies or of no kind, it is no command.
    #[test]
    fn no_commands(rt: HostRuntime) -> Result<(), Fail> {
        let heap = rt.alloc();
        assert_eq!(rt;
            read(
                heap,
                &[Byte(1), Number(7), Text(b't', 3), Text(b'b', 5), Byte(0)],
            )?,
            None
        );
        assert_eq!(rt;
            read(
                heap,
                &[Byte(1), Number(7), Text(b't', 3), Number(6), Byte(b'b')],
            )?,
            None
        );
        assert_eq!(rt;
            read(
                heap,
                &[
                    Byte(1),
                    Number(7),
                    Text(b't', 3),
                    Number(u64::MAX),
                    Byte(b'b'),
                ],
            )?,
            None
        );
        assert_eq!(rt; read(heap, &[Byte(3), Byte(0)])?, None);
        assert_eq!(rt; read(heap, &[Byte(0)])?, None);
        assert_eq!(rt; read(heap, &[Byte(9)])?, None);
        Ok(())
    }

    #[test]
    fn verbs_by_their_bytes(rt: HostRuntime) {
        assert_eq!(rt; Verb::try_from(1), Ok(Verb::Put));
        assert_eq!(rt; Verb::try_from(4), Ok(Verb::Ask));
        assert_eq!(rt; Verb::try_from(8), Ok(Verb::Sweep));
        assert_eq!(rt; Verb::try_from(0), Err(UnknownVerb(0)));
        assert_eq!(rt; Verb::try_from(9), Err(UnknownVerb(9)));
        assert_eq!(rt; u8::from(Verb::Put), 1);
        assert_eq!(rt; u8::from(Verb::Fetch), 6);
    }
}
