// RFC 2349, the timeout and transfer size options.
use crate::datagrams::Datagram;
use crate::example::Example;

pub static EXAMPLES: [Example<Datagram>; 9] = [
    Example {
        source: "RFC 2349",
        about: "the request, timeout 1",
        case: Datagram {
            bytes: b"\0\x01foobar\0octet\0timeout\01\0",
            service: Some("OACK timeout=1"),
        },
        words: "RRQ foobar octet timeout=1",
    },
    Example {
        source: "RFC 2349",
        about: "its OACK",
        case: Datagram {
            bytes: b"\0\x06timeout\01\0",
            service: None,
        },
        words: "OACK timeout=1",
    },
    Example {
        source: "RFC 2349",
        about: "the longest timeout, 255",
        case: Datagram {
            bytes: b"\0\x01foobar\0octet\0timeout\0255\0",
            service: Some("OACK timeout=255"),
        },
        words: "RRQ foobar octet timeout=255",
    },
    Example {
        source: "RFC 2349",
        about: "one below the shortest, 0",
        case: Datagram {
            bytes: b"\0\x01foobar\0octet\0timeout\00\0",
            service: Some("no OACK"),
        },
        words: "RRQ foobar octet timeout=0",
    },
    Example {
        source: "RFC 2349",
        about: "one above the longest, 256",
        case: Datagram {
            bytes: b"\0\x01foobar\0octet\0timeout\0256\0",
            service: Some("no OACK"),
        },
        words: "RRQ foobar octet timeout=256",
    },
    Example {
        source: "RFC 2349",
        about: "the request, transfer size 673312",
        case: Datagram {
            bytes: b"\0\x02foobar\0octet\0tsize\0673312\0",
            service: Some("no OACK"),
        },
        words: "WRQ foobar octet tsize=673312",
    },
    Example {
        source: "RFC 2349",
        about: "its OACK",
        case: Datagram {
            bytes: b"\0\x06tsize\0673312\0",
            service: None,
        },
        words: "OACK tsize=673312",
    },
    Example {
        source: "RFC 2349",
        about: "a read request asks the size by 0",
        case: Datagram {
            bytes: b"\0\x01foobar\0octet\0tsize\00\0",
            service: Some("no OACK"),
        },
        words: "RRQ foobar octet tsize=0",
    },
    Example {
        source: "RFC 2349",
        about: "the file is too large, error 3",
        case: Datagram {
            bytes: b"\0\x05\0\x03Disk full or allocation exceeded.\0",
            service: None,
        },
        words: "ERROR 3 Disk\\x20full\\x20or\\x20allocation\\x20exceeded.",
    },
];
