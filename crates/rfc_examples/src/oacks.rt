// OACKs, as the shield that asked takes them.
use crate::agreement::Oack;
use crate::example::Example;
use options::asked::Ask;

pub static OACKS: [Example<Oack>; 14] = [
    Example {
        source: "RFC 2347",
        about: "the read, asked and answered block size 1432",
        case: Oack {
            ask: Ask {
                blksize: 1432,
                timeout: 0,
                windowsize: 0,
            },
            bytes: b"\0\x06blksize\01432\0",
        },
        words: "block size 1432, window 1, wait 5, tries 5",
    },
    Example {
        source: "RFC 2347",
        about: "the write, asked block size 1468 and answered 2048",
        case: Oack {
            ask: Ask {
                blksize: 1468,
                timeout: 0,
                windowsize: 0,
            },
            bytes: b"\0\x06blksize\02048\0",
        },
        words: "refused 8 OACK not accepted",
    },
    Example {
        source: "RFC 2347",
        about: "an option answered that was not asked",
        case: Oack {
            ask: Ask {
                blksize: 0,
                timeout: 0,
                windowsize: 16,
            },
            bytes: b"\0\x06blksize\01432\0",
        },
        words: "refused 8 OACK not accepted",
    },
    Example {
        source: "RFC 2347",
        about: "an option asked that is not answered",
        case: Oack {
            ask: Ask {
                blksize: 1432,
                timeout: 1,
                windowsize: 0,
            },
            bytes: b"\0\x06blksize\01432\0",
        },
        words: "block size 1432, window 1, wait 5, tries 5",
    },
    Example {
        source: "RFC 2348",
        about: "asked and answered block size 1428",
        case: Oack {
            ask: Ask {
                blksize: 1428,
                timeout: 0,
                windowsize: 0,
            },
            bytes: b"\0\x06blksize\01428\0",
        },
        words: "block size 1428, window 1, wait 5, tries 5",
    },
    Example {
        source: "RFC 2348",
        about: "a smaller block size answered",
        case: Oack {
            ask: Ask {
                blksize: 1428,
                timeout: 0,
                windowsize: 0,
            },
            bytes: b"\0\x06blksize\01024\0",
        },
        words: "block size 1024, window 1, wait 5, tries 5",
    },
    Example {
        source: "RFC 2348",
        about: "a larger block size answered",
        case: Oack {
            ask: Ask {
                blksize: 1428,
                timeout: 0,
                windowsize: 0,
            },
            bytes: b"\0\x06blksize\01429\0",
        },
        words: "refused 8 OACK not accepted",
    },
    Example {
        source: "RFC 2349",
        about: "asked and answered timeout 1",
        case: Oack {
            ask: Ask {
                blksize: 0,
                timeout: 1,
                windowsize: 0,
            },
            bytes: b"\0\x06timeout\01\0",
        },
        words: "block size 512, window 1, wait 1, tries 5",
    },
    Example {
        source: "RFC 2349",
        about: "another timeout answered",
        case: Oack {
            ask: Ask {
                blksize: 0,
                timeout: 2,
                windowsize: 0,
            },
            bytes: b"\0\x06timeout\01\0",
        },
        words: "refused 8 OACK not accepted",
    },
    Example {
        source: "RFC 2349",
        about: "a transfer size answered, which we never ask",
        case: Oack {
            ask: Ask {
                blksize: 0,
                timeout: 1,
                windowsize: 0,
            },
            bytes: b"\0\x06timeout\01\0tsize\0673312\0",
        },
        words: "refused 8 OACK not accepted",
    },
    Example {
        source: "RFC 7440",
        about: "asked and answered window size 16",
        case: Oack {
            ask: Ask {
                blksize: 0,
                timeout: 0,
                windowsize: 16,
            },
            bytes: b"\0\x06windowsize\016\0",
        },
        words: "block size 512, window 16, wait 5, tries 5",
    },
    Example {
        source: "RFC 7440",
        about: "a smaller window size answered",
        case: Oack {
            ask: Ask {
                blksize: 0,
                timeout: 0,
                windowsize: 16,
            },
            bytes: b"\0\x06windowsize\08\0",
        },
        words: "block size 512, window 8, wait 5, tries 5",
    },
    Example {
        source: "RFC 7440",
        about: "a larger window size answered",
        case: Oack {
            ask: Ask {
                blksize: 0,
                timeout: 0,
                windowsize: 8,
            },
            bytes: b"\0\x06windowsize\016\0",
        },
        words: "refused 8 OACK not accepted",
    },
    Example {
        source: "RFC 7440",
        about: "asked and answered a block size too",
        case: Oack {
            ask: Ask {
                blksize: 1428,
                timeout: 0,
                windowsize: 16,
            },
            bytes: b"\0\x06blksize\01428\0windowsize\016\0",
        },
        words: "block size 1428, window 16, wait 5, tries 5",
    },
];
