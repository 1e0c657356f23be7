// RFC 2348, the block size option.
use crate::datagrams::Datagram;
use crate::example::Example;

pub static EXAMPLES: [Example<Datagram>; 8] = [
    Example {
        source: "RFC 2348",
        about: "the request, block size 1428",
        case: Datagram {
            bytes: b"\0\x01foobar\0octet\0blksize\01428\0",
            service: Some("OACK blksize=1428"),
        },
        words: "RRQ foobar octet blksize=1428",
    },
    Example {
        source: "RFC 2348",
        about: "its OACK",
        case: Datagram {
            bytes: b"\0\x06blksize\01428\0",
            service: None,
        },
        words: "OACK blksize=1428",
    },
    Example {
        source: "RFC 2348",
        about: "the least block size, 8",
        case: Datagram {
            bytes: b"\0\x01foobar\0octet\0blksize\08\0",
            service: Some("OACK blksize=8"),
        },
        words: "RRQ foobar octet blksize=8",
    },
    Example {
        source: "RFC 2348",
        about: "one below the least, 7",
        case: Datagram {
            bytes: b"\0\x01foobar\0octet\0blksize\07\0",
            service: Some("no OACK"),
        },
        words: "RRQ foobar octet blksize=7",
    },
    Example {
        source: "RFC 2348",
        about: "the largest block size, 65464",
        case: Datagram {
            bytes: b"\0\x01foobar\0octet\0blksize\065464\0",
            service: Some("OACK blksize=1468"),
        },
        words: "RRQ foobar octet blksize=65464",
    },
    Example {
        source: "RFC 2348",
        about: "one above the largest, 65465",
        case: Datagram {
            bytes: b"\0\x01foobar\0octet\0blksize\065465\0",
            service: Some("no OACK"),
        },
        words: "RRQ foobar octet blksize=65465",
    },
    Example {
        source: "RFC 2348",
        about: "the largest that the cabin answers, 1468",
        case: Datagram {
            bytes: b"\0\x01foobar\0octet\0blksize\01468\0",
            service: Some("OACK blksize=1468"),
        },
        words: "RRQ foobar octet blksize=1468",
    },
    Example {
        source: "RFC 2348",
        about: "one above what the cabin answers, 1469",
        case: Datagram {
            bytes: b"\0\x01foobar\0octet\0blksize\01469\0",
            service: Some("OACK blksize=1468"),
        },
        words: "RRQ foobar octet blksize=1469",
    },
];
