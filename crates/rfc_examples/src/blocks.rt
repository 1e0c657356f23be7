// Blocks of data, which the RFCs give by their length.
use crate::datagrams::Block;
use crate::example::Example;

pub static BLOCKS: [Example<Block>; 14] = [
    Example {
        source: "RFC 1350",
        about: "a write begins: block 1, 512 bytes",
        case: Block {
            number: 1,
            len: 512,
        },
        words: "DATA 1 512",
    },
    Example {
        source: "RFC 1350",
        about: "a read begins: block 1, 512 bytes",
        case: Block {
            number: 1,
            len: 512,
        },
        words: "DATA 1 512",
    },
    Example {
        source: "RFC 1350",
        about: "the longest final block, 511 bytes",
        case: Block {
            number: 2,
            len: 511,
        },
        words: "DATA 2 511",
    },
    Example {
        source: "RFC 1350",
        about: "the shortest final block, no bytes",
        case: Block { number: 2, len: 0 },
        words: "DATA 2 0",
    },
    Example {
        source: "RFC 2347",
        about: "the read: block 1, 1432 bytes",
        case: Block {
            number: 1,
            len: 1432,
        },
        words: "DATA 1 1432",
    },
    Example {
        source: "RFC 2347",
        about: "the read: block 2, 1432 bytes",
        case: Block {
            number: 2,
            len: 1432,
        },
        words: "DATA 2 1432",
    },
    Example {
        source: "RFC 2347",
        about: "the read: block 3, the last, under 1432 bytes",
        case: Block {
            number: 3,
            len: 1431,
        },
        words: "DATA 3 1431",
    },
    Example {
        source: "RFC 2347",
        about: "the write: block 1, 2048 bytes",
        case: Block {
            number: 1,
            len: 2048,
        },
        words: "refused 2 bytes not of the opcode's shape",
    },
    Example {
        source: "RFC 2347",
        about: "the write: block 2, 2048 bytes",
        case: Block {
            number: 2,
            len: 2048,
        },
        words: "refused 2 bytes not of the opcode's shape",
    },
    Example {
        source: "RFC 2347",
        about: "the write: block 3, the last, under 2048 bytes",
        case: Block {
            number: 3,
            len: 2047,
        },
        words: "refused 2 bytes not of the opcode's shape",
    },
    Example {
        source: "RFC 2347",
        about: "the write: block 3, were it 1469 bytes",
        case: Block {
            number: 3,
            len: 1469,
        },
        words: "refused 2 bytes not of the opcode's shape",
    },
    Example {
        source: "RFC 2347",
        about: "the write: block 3, were it 1468 bytes",
        case: Block {
            number: 3,
            len: 1468,
        },
        words: "DATA 3 1468",
    },
    Example {
        source: "RFC 2348",
        about: "block 1 after the request, 1428 bytes",
        case: Block {
            number: 1,
            len: 1428,
        },
        words: "DATA 1 1428",
    },
    Example {
        source: "RFC 7440",
        about: "block 16, the last of a window, 512 bytes",
        case: Block {
            number: 16,
            len: 512,
        },
        words: "DATA 16 512",
    },
];
