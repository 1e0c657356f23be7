// Examples of reading and writing datagrams. A crate of their own, since the tests of a crate prove it once more.
#![tactic(auto)]

use grammar::message::{Access, Message, Request};
use grammar::mode::Mode;
use grammar::pairs::is_paired;
use grammar::places::Places;
use grammar::text::{cut, is_text};
use std::alloc::{AllocError, Global};
use std::test::Fail;
use terms::refusal::Refusal;
use wire::laws::{read_then_write, write_then_read};
use wire::reading::read;
use wire::writing::write;

const UNKNOWN: Option<Refusal> = Some(Refusal::UnknownOpcode);

const MALFORMED: Option<Refusal> = Some(Refusal::Malformed);

// So many bytes: the opcode and then `x`, of which the last ones are zero.
fn shaped(alloc: Global, opcode: u8, len: usize, zeros: usize) -> Result<Vec<u8>, AllocError> {
    (0..len)
        .map(|i| match i {
            0 => 0,
            1 => opcode,
            _ if len - i <= zeros => 0,
            _ => b'x',
        })
        .collect(alloc)
}

// Whether every byte is this one.
fn is_all(bytes: &[u8], one: u8) -> bool {
    bytes.iter().all(|b| *b == one)
}

// Each opcode at its shortest and longest length, and one byte past: opcode, length, zero bytes at the end, refusal.
#[test]
fn lengths(rt: HostRuntime) -> Result<(), Fail> {
    let table = [
        // a request of an empty name and mode, and one of a name that fills it
        (1, 3, 1, MALFORMED),
        (1, 4, 2, None),
        (1, 512, 2, None),
        (1, 513, 2, MALFORMED),
        (2, 3, 1, MALFORMED),
        (2, 4, 2, None),
        (2, 512, 2, None),
        (2, 513, 2, MALFORMED),
        // without its last zero byte
        (2, 512, 1, MALFORMED),
        // DATA of none, of 1,468 and of 1,469 bytes
        (3, 3, 0, MALFORMED),
        (3, 4, 0, None),
        (3, 1472, 0, None),
        (3, 1473, 0, MALFORMED),
        (4, 3, 0, MALFORMED),
        (4, 4, 0, None),
        (4, 5, 0, MALFORMED),
        // ERROR with a message of none, of 128 and of 129 bytes, and without its zero byte
        (5, 4, 0, MALFORMED),
        (5, 5, 1, None),
        (5, 133, 1, None),
        (5, 134, 1, MALFORMED),
        (5, 133, 0, MALFORMED),
        // OACK without pairs, and with one of an empty value that fills it
        (6, 2, 0, None),
        (6, 512, 2, None),
        (6, 513, 2, MALFORMED),
        (6, 512, 1, MALFORMED),
        // no opcode
        (0, 4, 0, UNKNOWN),
        (7, 4, 0, UNKNOWN),
        (1, 1, 0, UNKNOWN),
        (1, 0, 0, UNKNOWN),
    ];
    for (opcode, len, zeros, refused) in table {
        let bytes = shaped(rt.alloc(), opcode, len, zeros)?;
        assert_eq!(rt; read(&bytes).err(), refused);
    }
    Ok(())
}

#[test]
fn shapes(rt: HostRuntime) {
    let table: [(&[u8], Option<Refusal>); 12] = [
        (b"\0\x01boot\0octet\0", None),
        (b"\0\x01boot\0octet\0blksize\01024\0", None),
        (b"\0\x01boot\0octet\0blksize\01024", MALFORMED),
        (b"\0\x02boot\0octet", MALFORMED),
        (b"\0\x06tsize\0\0", None),
        (b"\0\x06tsize\0", MALFORMED),
        (b"\0\x06\x000\0", MALFORMED),
        (b"\0\x06a\0b\0c\0d\0", None),
        (b"\0\x06a\0b\0\0d\0", MALFORMED),
        (b"\0\x05\0\x01a\0b\0", MALFORMED),
        (b"\x01\x04\0\0", UNKNOWN),
        (b"\x04", UNKNOWN),
    ];
    for (bytes, refused) in table {
        assert_eq!(rt; read(bytes).err(), refused);
    }
}

#[test]
fn modes(rt: HostRuntime) {
    let refused = Err(Refusal::UnsupportedMode);
    let table: [(&[u8], Result<Mode, Refusal>); 7] = [
        (b"octet", Ok(Mode::Octet)),
        (b"OcTeT", Ok(Mode::Octet)),
        (b"OCTET", Ok(Mode::Octet)),
        (b"netascii", refused),
        (b"octe", refused),
        (b"octets", refused),
        (b"", refused),
    ];
    for (bytes, expected) in table {
        assert_eq!(rt; Mode::read(bytes), expected);
    }
    assert!(rt; Mode::Octet.text() == b"octet".as_slice());
}

#[test]
fn buffers(rt: HostRuntime) {
    let mut short = [7; 1471];
    assert_eq!(rt;
        write(Message::ack(258), &mut short),
        Err(Refusal::ShortBuffer)
    );
    assert!(rt; is_all(&short, 7));
    let mut even = [7; 1472];
    let full = Message::Data {
        block: 1,
        bytes: &[9; 1468],
    };
    assert_eq!(rt; write(full, &mut even), Ok(1472));
    assert!(rt; is_all(&even[4..1472], 9));
    let mut long = [7; 1500];
    assert_eq!(rt; write(Message::ack(258), &mut long), Ok(4));
    assert!(rt; &long[0..4] == b"\0\x04\x01\x02".as_slice());
    assert!(rt; is_all(&long[4..1500], 7));
}

// Messages that no datagram has are refused, and the buffer is left as it was.
#[test]
fn misshapen(rt: HostRuntime) {
    let table = [
        Message::Data {
            block: 1,
            bytes: &[9; 1469],
        },
        Message::Error {
            code: 0,
            message: &[b'x'; 129],
        },
        Message::Error {
            code: 0,
            message: b"a\0b",
        },
        Message::Oack { pairs: b"a\0b" },
        Message::Oack { pairs: b"\0b\0" },
        Message::Request(Request {
            access: Access::Read,
            name: b"a\0",
            mode: b"octet",
            pairs: b"",
        }),
        Message::Request(Request {
            access: Access::Write,
            name: &[b'x'; 500],
            mode: b"octet",
            pairs: b"a\0b\0",
        }),
    ];
    for message in table {
        let mut buf = [7; 1472];
        assert_eq!(rt; write(message, &mut buf), Err(Refusal::Malformed));
        assert!(rt; is_all(&buf, 7));
    }
}

// What is read and written again is the datagram to the byte.
#[test]
fn copies(rt: HostRuntime) -> Result<(), Fail> {
    let table: [&[u8]; 6] = [
        b"\0\x01boot\0octet\0",
        b"\0\x02boot\0octet\0blksize\01024\0",
        b"\0\x03\x01\x02block",
        b"\0\x04\x01\x02",
        b"\0\x05\0\x01no such item\0",
        b"\0\x06blksize\01024\0",
    ];
    for bytes in table {
        let mut buf = [7; 1472];
        let end = read_then_write(bytes, &mut buf)?;
        assert!(rt; end <= 1472);
        assert!(rt; &buf[0..end] == bytes);
        assert!(rt; is_all(&buf[end..1472], 7));
    }
    Ok(())
}

// What is written and read again is the message.
#[test]
fn returns(rt: HostRuntime) -> Result<(), Fail> {
    let request = Request {
        access: Access::Write,
        name: b"boot",
        mode: b"octet",
        pairs: b"blksize\01024\0",
    };
    let mut buf = [7; 1472];
    match write_then_read(Message::Request(request), &mut buf)? {
        Message::Request(again) => {
            assert!(rt; again == request);
            Ok(())
        }
        _ => Err(Fail::new("another message")),
    }
}

#[test]
fn places(rt: HostRuntime) -> Result<(), Fail> {
    let bytes = b"\0\x02boot\0octet\0blksize\01024\0";
    match read(bytes)?.places() {
        Places::Request { name, mode, pairs } => {
            assert_eq!(rt; name, 2);
            assert_eq!(rt; mode, 7);
            assert_eq!(rt; pairs, 13);
            Ok(())
        }
        _ => Err(Fail::new("no request")),
    }
}

#[test]
fn texts(rt: HostRuntime) {
    assert!(rt; is_text(b"abc") && is_text(b"") && !is_text(b"a\0"));
    assert!(rt; is_paired(b"") && is_paired(b"a\0\0") && !is_paired(b"\0a\0"));
    assert!(rt; cut(b"a\0b\0") == Some((b"a".as_slice(), b"b\0".as_slice())));
}
