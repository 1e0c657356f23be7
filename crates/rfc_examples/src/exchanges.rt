// Whole exchanges of options, from what the shield asks to what both ends hold.
use crate::example::Example;
use options::asked::Ask;

pub static EXCHANGES: [Example<Ask>; 11] = [
    Example {
        source: "RFC 1350",
        about: "no option",
        case: Ask {
            blksize: 0,
            timeout: 0,
            windowsize: 0,
        },
        words: "block size 512, window 1, wait 5, tries 5",
    },
    Example {
        source: "RFC 2347",
        about: "the read, block size 1432",
        case: Ask {
            blksize: 1432,
            timeout: 0,
            windowsize: 0,
        },
        words: "block size 1432, window 1, wait 5, tries 5",
    },
    Example {
        source: "RFC 2347",
        about: "the write, block size 2048",
        case: Ask {
            blksize: 2048,
            timeout: 0,
            windowsize: 0,
        },
        words: "refused 6 operand out of range",
    },
    Example {
        source: "RFC 2348",
        about: "block size 1428",
        case: Ask {
            blksize: 1428,
            timeout: 0,
            windowsize: 0,
        },
        words: "block size 1428, window 1, wait 5, tries 5",
    },
    Example {
        source: "RFC 2348",
        about: "the least block size, 8",
        case: Ask {
            blksize: 8,
            timeout: 0,
            windowsize: 0,
        },
        words: "block size 8, window 1, wait 5, tries 5",
    },
    Example {
        source: "RFC 2348",
        about: "the largest block size, 65464",
        case: Ask {
            blksize: 65464,
            timeout: 0,
            windowsize: 0,
        },
        words: "refused 6 operand out of range",
    },
    Example {
        source: "RFC 2349",
        about: "timeout 1",
        case: Ask {
            blksize: 0,
            timeout: 1,
            windowsize: 0,
        },
        words: "block size 512, window 1, wait 1, tries 5",
    },
    Example {
        source: "RFC 2349",
        about: "the longest timeout, 255",
        case: Ask {
            blksize: 0,
            timeout: 255,
            windowsize: 0,
        },
        words: "block size 512, window 1, wait 255, tries 5",
    },
    Example {
        source: "RFC 7440",
        about: "window size 16",
        case: Ask {
            blksize: 0,
            timeout: 0,
            windowsize: 16,
        },
        words: "block size 512, window 16, wait 5, tries 5",
    },
    Example {
        source: "RFC 7440",
        about: "the largest window size, 65535",
        case: Ask {
            blksize: 0,
            timeout: 0,
            windowsize: 65535,
        },
        words: "refused 6 operand out of range",
    },
    Example {
        source: "RFC 7440",
        about: "block size 1428 and window size 16",
        case: Ask {
            blksize: 1428,
            timeout: 0,
            windowsize: 16,
        },
        words: "block size 1428, window 16, wait 5, tries 5",
    },
];
