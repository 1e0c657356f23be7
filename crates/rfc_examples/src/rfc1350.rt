// RFC 1350, the protocol.
use crate::datagrams::Datagram;
use crate::example::Example;

pub static EXAMPLES: [Example<Datagram>; 30] = [
    Example {
        source: "RFC 1350",
        about: "opcode 1, read request",
        case: Datagram {
            bytes: b"\0\x01foobar\0octet\0",
            service: Some("no OACK"),
        },
        words: "RRQ foobar octet",
    },
    Example {
        source: "RFC 1350",
        about: "opcode 2, write request",
        case: Datagram {
            bytes: b"\0\x02foobar\0octet\0",
            service: Some("no OACK"),
        },
        words: "WRQ foobar octet",
    },
    Example {
        source: "RFC 1350",
        about: "opcode 3, data",
        case: Datagram {
            bytes: b"\0\x03\0\x01abc",
            service: None,
        },
        words: "DATA 1 3",
    },
    Example {
        source: "RFC 1350",
        about: "opcode 4, acknowledgment",
        case: Datagram {
            bytes: b"\0\x04\0\x01",
            service: None,
        },
        words: "ACK 1",
    },
    Example {
        source: "RFC 1350",
        about: "opcode 5, error, without a message",
        case: Datagram {
            bytes: b"\0\x05\0\0\0",
            service: None,
        },
        words: "ERROR 0",
    },
    Example {
        source: "RFC 1350",
        about: "opcode 0, before the table",
        case: Datagram {
            bytes: b"\0\0foobar\0octet\0",
            service: None,
        },
        words: "refused 1 under two bytes, or opcode not 1 to 6",
    },
    Example {
        source: "RFC 1350",
        about: "opcode 7, past the table and RFC 2347",
        case: Datagram {
            bytes: b"\0\x07foobar\0octet\0",
            service: None,
        },
        words: "refused 1 under two bytes, or opcode not 1 to 6",
    },
    Example {
        source: "RFC 1350",
        about: "a read request in netascii",
        case: Datagram {
            bytes: b"\0\x01foobar\0netascii\0",
            service: Some("refused 4 mode not octet"),
        },
        words: "RRQ foobar netascii",
    },
    Example {
        source: "RFC 1350",
        about: "a write request in netascii",
        case: Datagram {
            bytes: b"\0\x02foobar\0netascii\0",
            service: Some("refused 4 mode not octet"),
        },
        words: "WRQ foobar netascii",
    },
    Example {
        source: "RFC 1350",
        about: "a write request in mail, with a recipient for the file",
        case: Datagram {
            bytes: b"\0\x02user\0mail\0",
            service: Some("refused 4 mode not octet"),
        },
        words: "WRQ user mail",
    },
    Example {
        source: "RFC 1350",
        about: "a read request in mail, which only a WRQ may begin",
        case: Datagram {
            bytes: b"\0\x01user\0mail\0",
            service: Some("refused 4 mode not octet"),
        },
        words: "RRQ user mail",
    },
    Example {
        source: "RFC 1350",
        about: "the mode in upper case, NETASCII",
        case: Datagram {
            bytes: b"\0\x01foobar\0NETASCII\0",
            service: Some("refused 4 mode not octet"),
        },
        words: "RRQ foobar NETASCII",
    },
    Example {
        source: "RFC 1350",
        about: "the mode in both cases, NetAscii",
        case: Datagram {
            bytes: b"\0\x01foobar\0NetAscii\0",
            service: Some("refused 4 mode not octet"),
        },
        words: "RRQ foobar NetAscii",
    },
    Example {
        source: "RFC 1350",
        about: "the mode in upper case, OCTET",
        case: Datagram {
            bytes: b"\0\x01foobar\0OCTET\0",
            service: Some("no OACK"),
        },
        words: "RRQ foobar OCTET",
    },
    Example {
        source: "RFC 1350",
        about: "the mode in both cases, Octet",
        case: Datagram {
            bytes: b"\0\x02foobar\0Octet\0",
            service: Some("no OACK"),
        },
        words: "WRQ foobar Octet",
    },
    Example {
        source: "RFC 1350",
        about: "the mode in both cases, oCtEt",
        case: Datagram {
            bytes: b"\0\x02foobar\0oCtEt\0",
            service: Some("no OACK"),
        },
        words: "WRQ foobar oCtEt",
    },
    Example {
        source: "RFC 1350",
        about: "the mode in upper case, MAIL",
        case: Datagram {
            bytes: b"\0\x02user\0MAIL\0",
            service: Some("refused 4 mode not octet"),
        },
        words: "WRQ user MAIL",
    },
    Example {
        source: "RFC 1350",
        about: "a file name with a space, which netascii has",
        case: Datagram {
            bytes: b"\0\x01foo bar\0octet\0",
            service: Some("refused 3 item name not legal"),
        },
        words: "RRQ foo\\x20bar octet",
    },
    Example {
        source: "RFC 1350",
        about: "a write begins: WRQ",
        case: Datagram {
            bytes: b"\0\x02foobar\0octet\0",
            service: Some("no OACK"),
        },
        words: "WRQ foobar octet",
    },
    Example {
        source: "RFC 1350",
        about: "a write begins: ACK of block 0",
        case: Datagram {
            bytes: b"\0\x04\0\0",
            service: None,
        },
        words: "ACK 0",
    },
    Example {
        source: "RFC 1350",
        about: "a read begins: RRQ",
        case: Datagram {
            bytes: b"\0\x01foobar\0octet\0",
            service: Some("no OACK"),
        },
        words: "RRQ foobar octet",
    },
    Example {
        source: "RFC 1350",
        about: "a read begins: ACK of block 1",
        case: Datagram {
            bytes: b"\0\x04\0\x01",
            service: None,
        },
        words: "ACK 1",
    },
    Example {
        source: "RFC 1350",
        about: "error 0",
        case: Datagram {
            bytes: b"\0\x05\0\0Not defined, see error message (if any).\0",
            service: None,
        },
        words: "ERROR 0 Not\\x20defined,\\x20see\\x20error\\x20message\\x20(if\\x20any).",
    },
    Example {
        source: "RFC 1350",
        about: "error 1",
        case: Datagram {
            bytes: b"\0\x05\0\x01File not found.\0",
            service: None,
        },
        words: "ERROR 1 File\\x20not\\x20found.",
    },
    Example {
        source: "RFC 1350",
        about: "error 2",
        case: Datagram {
            bytes: b"\0\x05\0\x02Access violation.\0",
            service: None,
        },
        words: "ERROR 2 Access\\x20violation.",
    },
    Example {
        source: "RFC 1350",
        about: "error 3",
        case: Datagram {
            bytes: b"\0\x05\0\x03Disk full or allocation exceeded.\0",
            service: None,
        },
        words: "ERROR 3 Disk\\x20full\\x20or\\x20allocation\\x20exceeded.",
    },
    Example {
        source: "RFC 1350",
        about: "error 4",
        case: Datagram {
            bytes: b"\0\x05\0\x04Illegal TFTP operation.\0",
            service: None,
        },
        words: "ERROR 4 Illegal\\x20TFTP\\x20operation.",
    },
    Example {
        source: "RFC 1350",
        about: "error 5",
        case: Datagram {
            bytes: b"\0\x05\0\x05Unknown transfer ID.\0",
            service: None,
        },
        words: "ERROR 5 Unknown\\x20transfer\\x20ID.",
    },
    Example {
        source: "RFC 1350",
        about: "error 6",
        case: Datagram {
            bytes: b"\0\x05\0\x06File already exists.\0",
            service: None,
        },
        words: "ERROR 6 File\\x20already\\x20exists.",
    },
    Example {
        source: "RFC 1350",
        about: "error 7",
        case: Datagram {
            bytes: b"\0\x05\0\x07No such user.\0",
            service: None,
        },
        words: "ERROR 7 No\\x20such\\x20user.",
    },
];
