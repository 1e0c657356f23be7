// RFC 7440, the window size option.
use crate::datagrams::Datagram;
use crate::example::Example;

pub static EXAMPLES: [Example<Datagram>; 12] = [
    Example {
        source: "RFC 7440",
        about: "the request, window size 16",
        case: Datagram {
            bytes: b"\0\x01foobar\0octet\0windowsize\016\0",
            service: Some("OACK windowsize=16"),
        },
        words: "RRQ foobar octet windowsize=16",
    },
    Example {
        source: "RFC 7440",
        about: "its OACK",
        case: Datagram {
            bytes: b"\0\x06windowsize\016\0",
            service: None,
        },
        words: "OACK windowsize=16",
    },
    Example {
        source: "RFC 7440",
        about: "the least window size, 1",
        case: Datagram {
            bytes: b"\0\x01foobar\0octet\0windowsize\01\0",
            service: Some("OACK windowsize=1"),
        },
        words: "RRQ foobar octet windowsize=1",
    },
    Example {
        source: "RFC 7440",
        about: "one below the least, 0",
        case: Datagram {
            bytes: b"\0\x01foobar\0octet\0windowsize\00\0",
            service: Some("no OACK"),
        },
        words: "RRQ foobar octet windowsize=0",
    },
    Example {
        source: "RFC 7440",
        about: "the largest window size, 65535",
        case: Datagram {
            bytes: b"\0\x01foobar\0octet\0windowsize\065535\0",
            service: Some("OACK windowsize=16"),
        },
        words: "RRQ foobar octet windowsize=65535",
    },
    Example {
        source: "RFC 7440",
        about: "one above the largest, 65536",
        case: Datagram {
            bytes: b"\0\x01foobar\0octet\0windowsize\065536\0",
            service: Some("no OACK"),
        },
        words: "RRQ foobar octet windowsize=65536",
    },
    Example {
        source: "RFC 7440",
        about: "one above what the cabin answers, 17",
        case: Datagram {
            bytes: b"\0\x01foobar\0octet\0windowsize\017\0",
            service: Some("OACK windowsize=16"),
        },
        words: "RRQ foobar octet windowsize=17",
    },
    Example {
        source: "RFC 7440",
        about: "a request with a block size too",
        case: Datagram {
            bytes: b"\0\x01foobar\0octet\0blksize\01428\0windowsize\016\0",
            service: Some("OACK blksize=1428 windowsize=16"),
        },
        words: "RRQ foobar octet blksize=1428 windowsize=16",
    },
    Example {
        source: "RFC 7440",
        about: "an OACK with a block size too",
        case: Datagram {
            bytes: b"\0\x06blksize\01428\0windowsize\016\0",
            service: None,
        },
        words: "OACK blksize=1428 windowsize=16",
    },
    Example {
        source: "RFC 7440",
        about: "error 8, the window size of the OACK is not accepted",
        case: Datagram {
            bytes: b"\0\x05\0\x08option negotiation failed\0",
            service: None,
        },
        words: "ERROR 8 option\\x20negotiation\\x20failed",
    },
    Example {
        source: "RFC 7440",
        about: "ACK of the last block of a window of 16",
        case: Datagram {
            bytes: b"\0\x04\0\x10",
            service: None,
        },
        words: "ACK 16",
    },
    Example {
        source: "RFC 7440",
        about: "ACK of a block inside the window, which begins the next",
        case: Datagram {
            bytes: b"\0\x04\0\x0a",
            service: None,
        },
        words: "ACK 10",
    },
];
