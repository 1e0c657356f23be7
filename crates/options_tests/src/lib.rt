// Examples of names, patience, numbers and options. A crate of their own, since the tests of a crate prove it once more.
#![tactic(auto)]

use option_pairs::number::number;
use option_pairs::scan::scan_options;
use option_pairs::values::Ranges;
use options::accept::accept_pairs;
use options::asked::{Ask, ask_options};
use options::encode::{PairBytes, encode_oack, encode_options};
use options::exchange::exchange_options;
use options::offer::answer_pairs;
use std::test::Fail;
use terms::name::Name;
use terms::patience::Patience;
use terms::refusal::Refusal;

fn operands(blksize: u32, timeout: u32, windowsize: u32) -> Ask {
    Ask {
        blksize,
        timeout,
        windowsize,
    }
}

// Values with the numbers that they are, or none.
#[test]
fn numbers(rt: HostRuntime) {
    let table: [(&[u8], Option<u32>); 14] = [
        (b"0", Some(0)),
        (b"1", Some(1)),
        (b"00", None),
        (b"0512", None),
        (b"512", Some(512)),
        (b"4294967295", Some(4_294_967_295)),
        (b"4294967296", None),
        (b"9999999999", None),
        (b"10000000000", None),
        (b"", None),
        (b"+1", None),
        (b"-1", None),
        (b"1 ", None),
        (b"1a", None),
    ];
    for (value, expected) in table {
        assert!(rt; number(value) == expected);
    }
}

// Names of 0, 1, 32 and 33 bytes, and with bytes at the bounds.
#[test]
fn names(rt: HostRuntime) {
    let refused = Some(Refusal::IllegalName);
    let long = [b'n'; 33];
    let table: [(&[u8], Option<Refusal>); 8] = [
        (b"", refused),
        (b"n", None),
        (&long[0..32], None),
        (&long, refused),
        (b"a b", refused),
        (b"a\x7f", refused),
        (b"!~", None),
        (b"a\0", refused),
    ];
    for (text, expected) in table {
        let name = Name::new(text);
        assert!(rt; name.err() == expected);
        if let Ok(name) = name {
            assert!(rt; name.text() == text);
        }
    }
}

// Wait, tries, and the refusal.
#[test]
fn patience(rt: HostRuntime) {
    let refused = Some(Refusal::OutOfRange);
    let table: [(u32, u32, Option<Refusal>); 11] = [
        (218, 6, None),
        (219, 6, refused),
        (0, 5, refused),
        (1, 0, None),
        (255, 5, None),
        (255, 6, refused),
        (256, 0, refused),
        (95, 15, None),
        (96, 15, refused),
        (1, 16, refused),
        (4_294_967_295, 4_294_967_295, refused),
    ];
    for (wait, tries, expected) in table {
        let patience = Patience::new(wait, tries);
        assert!(rt; patience.err() == expected);
        if let Ok(patience) = patience {
            assert!(rt; u32::from(patience.wait) == wait && u32::from(patience.tries) == tries);
        }
    }
}

// Option pairs of a request with the OACK that a cabin of standard patience answers, empty where there is none, or the refusal.
#[test]
fn answers(rt: HostRuntime) {
    let table: [(&[u8], Result<&[u8], Refusal>); 17] = [
        (b"", Ok(b"")),
        (b"blksize\x007\0", Ok(b"")),
        (b"blksize\x008\0", Ok(b"blksize\x008\0")),
        (b"blksize\x001468\0", Ok(b"blksize\x001468\0")),
        (b"blksize\x0065464\0", Ok(b"blksize\x001468\0")),
        (b"blksize\x0065465\0", Ok(b"")),
        (b"timeout\x000\0", Ok(b"")),
        (b"timeout\x00255\0", Ok(b"timeout\x00255\0")),
        (b"timeout\x00256\0", Ok(b"")),
        (b"windowsize\x000\0", Ok(b"")),
        (b"windowsize\x0065535\0", Ok(b"windowsize\x0016\0")),
        (b"windowsize\x0065536\0", Ok(b"")),
        (
            b"WindowSize\x003\0TIMEOUT\x004\0blkSIZE\x00512\0",
            Ok(b"blksize\x00512\0timeout\x004\0windowsize\x003\0"),
        ),
        (b"tsize\x000\0blksize\x000512\0", Ok(b"")),
        (
            b"house\x001\0x\x002\0House\x003\0",
            Err(Refusal::RepeatedOption),
        ),
        (b"blksize\x00512\0\0", Err(Refusal::Malformed)),
        (b"blksize\x00512", Err(Refusal::Malformed)),
    ];
    for (pairs, expected) in table {
        let offer = answer_pairs(pairs, Patience::standard());
        assert!(rt; offer.err() == expected.err());
        if let Ok(offer) = offer {
            let oack = encode_oack(offer.answer).unwrap_or(PairBytes::empty());
            assert!(rt; expected == Ok(oack.as_slice()));
        }
    }
}

// A timeout is answered only where it is legal with the cabin's own tries.
#[test]
fn timeout_by_tries(rt: HostRuntime) -> Result<(), Fail> {
    let own = Patience::new(1, 15)?;
    assert!(rt; answer_pairs(b"timeout\x0095\0", own)?.answer.timeout == Some(95));
    assert!(rt; answer_pairs(b"timeout\x0096\0", own)?.answer.timeout == None);
    Ok(())
}

// OACKs that an ask of blksize 1024, timeout 9 and windowsize 8 accepts, and others.
#[test]
fn acceptance(rt: HostRuntime) -> Result<(), Fail> {
    let own = Patience::standard();
    let asked = ask_options(operands(1024, 9, 8), own)?;
    let refused = Some(Refusal::OptionsNotAccepted);
    let table: [(&[u8], Option<Refusal>); 15] = [
        (b"", None),
        (b"blksize\x001024\0", None),
        (b"blksize\x008\0", None),
        (b"blksize\x007\0", refused),
        (b"blksize\x001025\0", refused),
        (b"BLKSIZE\x001024\0timeout\x009\0windowsize\x001\0", None),
        (b"windowsize\x008\0blksize\x00512\0", None),
        (b"windowsize\x009\0", refused),
        (b"windowsize\x000\0", refused),
        (b"timeout\x008\0", refused),
        (b"timeout\x0010\0", refused),
        (b"tsize\x001\0", refused),
        (b"blksize\x00512\0BlkSize\x00512\0", refused),
        (b"blksize\x00 512\0", refused),
        (b"blksize", Some(Refusal::Malformed)),
    ];
    for (pairs, expected) in table {
        assert!(rt; accept_pairs(asked, own, pairs).err() == expected);
    }
    Ok(())
}

// Operands of ask with the refusal, and that the pairs written are read as the same options.
#[test]
fn asks(rt: HostRuntime) -> Result<(), Fail> {
    let own = Patience::new(10, 6)?;
    let refused = Some(Refusal::OutOfRange);
    let table: [(u32, u32, u32, Option<Refusal>); 12] = [
        (0, 0, 0, None),
        (8, 1, 1, None),
        (1468, 218, 16, None),
        (7, 0, 0, refused),
        (1469, 0, 0, refused),
        (0, 219, 0, refused),
        (0, 256, 0, refused),
        (0, 0, 17, refused),
        (512, 5, 4, None),
        (4_294_967_295, 0, 0, refused),
        (0, 4_294_967_295, 0, refused),
        (0, 0, 4_294_967_295, refused),
    ];
    for (blksize, timeout, windowsize, expected) in table {
        let asked = ask_options(operands(blksize, timeout, windowsize), own);
        assert!(rt; asked.err() == expected);
        if let Ok(asked) = asked {
            let bytes = encode_options(asked);
            let scan = scan_options(bytes.as_slice(), Ranges::of_request())?;
            assert!(rt; scan.found == asked && scan.all_valid);
        }
    }
    Ok(())
}

// After the exchange both ends hold the same; a timeout that the cabin passes over leaves each its own wait.
#[test]
fn exchanges(rt: HostRuntime) -> Result<(), Fail> {
    let shield = Patience::new(20, 0)?;
    let cabin = Patience::new(7, 15)?;
    let both = exchange_options(operands(1024, 60, 4), shield, cabin)?;
    assert!(rt; both.shield.block_size == 1024 && both.cabin.block_size == 1024);
    assert!(rt; both.shield.window == 4 && both.cabin.window == 4);
    assert!(rt; both.shield.patience.wait == 60 && both.cabin.patience.wait == 60);
    let apart = exchange_options(operands(0, 200, 0), shield, cabin)?;
    assert!(rt; apart.shield.block_size == 512 && apart.cabin.window == 1);
    assert!(rt; apart.shield.patience.wait == 20 && apart.cabin.patience.wait == 7);
    Ok(())
}
