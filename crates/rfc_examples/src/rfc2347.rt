// RFC 2347, option negotiation.
use crate::datagrams::Datagram;
use crate::example::Example;

pub static EXAMPLES: [Example<Datagram>; 18] = [
    Example {
        source: "RFC 2347",
        about: "the read: RRQ",
        case: Datagram {
            bytes: b"\0\x01foofile\0octet\0blksize\01432\0",
            service: Some("OACK blksize=1432"),
        },
        words: "RRQ foofile octet blksize=1432",
    },
    Example {
        source: "RFC 2347",
        about: "the read: OACK",
        case: Datagram {
            bytes: b"\0\x06blksize\01432\0",
            service: None,
        },
        words: "OACK blksize=1432",
    },
    Example {
        source: "RFC 2347",
        about: "the read: ACK of the OACK",
        case: Datagram {
            bytes: b"\0\x04\0\0",
            service: None,
        },
        words: "ACK 0",
    },
    Example {
        source: "RFC 2347",
        about: "the read: ACK of block 1",
        case: Datagram {
            bytes: b"\0\x04\0\x01",
            service: None,
        },
        words: "ACK 1",
    },
    Example {
        source: "RFC 2347",
        about: "the read: ACK of block 2",
        case: Datagram {
            bytes: b"\0\x04\0\x02",
            service: None,
        },
        words: "ACK 2",
    },
    Example {
        source: "RFC 2347",
        about: "the read: ACK of block 3",
        case: Datagram {
            bytes: b"\0\x04\0\x03",
            service: None,
        },
        words: "ACK 3",
    },
    Example {
        source: "RFC 2347",
        about: "the write: WRQ",
        case: Datagram {
            bytes: b"\0\x02barfile\0octet\0blksize\02048\0",
            service: Some("OACK blksize=1468"),
        },
        words: "WRQ barfile octet blksize=2048",
    },
    Example {
        source: "RFC 2347",
        about: "the write: OACK",
        case: Datagram {
            bytes: b"\0\x06blksize\02048\0",
            service: None,
        },
        words: "OACK blksize=2048",
    },
    Example {
        source: "RFC 2347",
        about: "the write: ACK of block 1",
        case: Datagram {
            bytes: b"\0\x04\0\x01",
            service: None,
        },
        words: "ACK 1",
    },
    Example {
        source: "RFC 2347",
        about: "the write: ACK of block 2",
        case: Datagram {
            bytes: b"\0\x04\0\x02",
            service: None,
        },
        words: "ACK 2",
    },
    Example {
        source: "RFC 2347",
        about: "the write: ACK of block 3",
        case: Datagram {
            bytes: b"\0\x04\0\x03",
            service: None,
        },
        words: "ACK 3",
    },
    Example {
        source: "RFC 2347",
        about: "error 8, the options are not accepted",
        case: Datagram {
            bytes: b"\0\x05\0\x08option negotiation failed\0",
            service: None,
        },
        words: "ERROR 8 option\\x20negotiation\\x20failed",
    },
    Example {
        source: "RFC 2347",
        about: "an option's name in upper case",
        case: Datagram {
            bytes: b"\0\x01foofile\0octet\0BLKSIZE\01432\0",
            service: Some("OACK blksize=1432"),
        },
        words: "RRQ foofile octet BLKSIZE=1432",
    },
    Example {
        source: "RFC 2347",
        about: "two options, their order is free",
        case: Datagram {
            bytes: b"\0\x01foofile\0octet\0timeout\01\0blksize\01432\0",
            service: Some("OACK blksize=1432 timeout=1"),
        },
        words: "RRQ foofile octet timeout=1 blksize=1432",
    },
    Example {
        source: "RFC 2347",
        about: "an option twice, which may be named once",
        case: Datagram {
            bytes: b"\0\x01foofile\0octet\0blksize\01432\0blksize\0512\0",
            service: Some("refused 5 option name twice"),
        },
        words: "RRQ foofile octet blksize=1432 blksize=512",
    },
    Example {
        source: "RFC 2347",
        about: "an option twice, in two cases",
        case: Datagram {
            bytes: b"\0\x01foofile\0octet\0blksize\01432\0Blksize\01432\0",
            service: Some("refused 5 option name twice"),
        },
        words: "RRQ foofile octet blksize=1432 Blksize=1432",
    },
    Example {
        source: "RFC 2347",
        about: "an option that the server does not know",
        case: Datagram {
            bytes: b"\0\x01foofile\0octet\0multicast\0\0",
            service: Some("no OACK"),
        },
        words: "RRQ foofile octet multicast=",
    },
    Example {
        source: "RFC 2347",
        about: "an option that the server knows after one that it does not",
        case: Datagram {
            bytes: b"\0\x01foofile\0octet\0multicast\0\0blksize\01432\0",
            service: Some("OACK blksize=1432"),
        },
        words: "RRQ foofile octet multicast= blksize=1432",
    },
];
