// Published Reed-Solomon words.
use galois::field1::Field1;
use reed_solomon::stage::ReedSolomon;
use stack::stage::Stage;
use std::test::Fail;

// The worked example of QR codes, over field 1 with the first root 1: sixteen data bytes.
const BYTES: [u8; 26] = [
    0x20, 0x5b, 0x0b, 0x78, 0xd1, 0x72, 0xdc, 0x4d, 0x43, 0x40, 0xec, 0x11, 0xec, 0x11, 0xec, 0x11,
    0, 0, 0, 0, 0, 0, 0, 0, 0, 0,
];

// The same with their ten check bytes.
const WORD: [u8; 26] = [
    0x20, 0x5b, 0x0b, 0x78, 0xd1, 0x72, 0xdc, 0x4d, 0x43, 0x40, 0xec, 0x11, 0xec, 0x11, 0xec, 0x11,
    0xc4, 0x23, 0x27, 0x77, 0xeb, 0xd7, 0xe7, 0xe2, 0x5d, 0x17,
];

// The word with five bytes damaged.
const DAMAGED: [u8; 26] = [
    0x20, 0x00, 0x0b, 0x78, 0xd1, 0x72, 0xff, 0x4d, 0x43, 0x40, 0xec, 0x11, 0xec, 0x12, 0xec, 0x11,
    0xc4, 0x23, 0x27, 0x78, 0xeb, 0xd7, 0xe7, 0xe2, 0x5d, 0x18,
];

// The data are encoded to the word, and the damaged word is read as the data, five bytes corrected.
#[test]
fn qr_symbol(rt: HostRuntime) -> Result<(), Fail> {
    let code = ReedSolomon::new(Field1, 0, 1, 16, 5).ok_or_else(|| Fail::new("numbers"))?;
    assert!(rt; code.upper() == 16 && code.lower() == 26);
    let mut from = BYTES;
    let mut to = [7u8; 26];
    code.encode(&mut from, &mut to);
    assert!(rt; to == WORD);
    let mut damaged = DAMAGED;
    assert_eq!(rt; code.decode(&mut damaged, &mut from).ok(), Some(5));
    assert!(rt; from == BYTES);
    Ok(())
}
