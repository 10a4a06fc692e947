// The energy-dispersal sequence, byte by byte, as another program made it, bit by bit; its first four bytes are the worked example of the rules.
use stack::stage::Stage;
use stages::randomiser::Randomiser;
use std::test::Fail;

const DISPERSAL: [u8; 64] = [
    0x03, 0xf6, 0x08, 0x34, 0x30, 0xb8, 0xa3, 0x93, 0xc9, 0x68, 0xb7, 0x73, 0xb3, 0x29, 0xaa, 0xf5,
    0xfe, 0x3c, 0x04, 0x88, 0x1b, 0x30, 0x5a, 0xa1, 0xdf, 0xc4, 0xc0, 0x9a, 0x83, 0x5f, 0x0b, 0xc2,
    0x38, 0x8c, 0x93, 0x2b, 0x6a, 0xfb, 0x7e, 0x1b, 0x04, 0x5a, 0x19, 0xdc, 0x54, 0xc9, 0xfa, 0xb4,
    0x1f, 0xb8, 0x41, 0x91, 0x85, 0x65, 0x1f, 0x5e, 0x43, 0xc5, 0x88, 0x9d, 0x33, 0x4e, 0xab, 0xa7,
];

// The sequence on zeros.
#[test]
fn dispersal(rt: HostRuntime) -> Result<(), Fail> {
    let randomiser = Randomiser::new(0x4a80, 64, 64).ok_or_else(|| Fail::new("numbers"))?;
    assert!(rt; randomiser.upper() == 64 && randomiser.lower() == 64);
    let mut from = [0u8; 64];
    let mut to = [9u8; 64];
    randomiser.encode(&mut from, &mut to);
    assert!(rt; to == DISPERSAL);
    Ok(())
}

// A unit of sixteen bytes starts the sequence four times.
#[test]
fn units(rt: HostRuntime) -> Result<(), Fail> {
    let randomiser = Randomiser::new(0x4a80, 16, 64).ok_or_else(|| Fail::new("numbers"))?;
    assert!(rt; randomiser.upper() == 64 && randomiser.lower() == 64);
    let mut from = [0u8; 64];
    let mut to = [0u8; 64];
    randomiser.encode(&mut from, &mut to);
    for unit in to.chunks(16) {
        assert!(rt; unit == &DISPERSAL[..16]);
    }
    assert!(rt; Randomiser::new(0x4a80, 15, 64).is_none());
    assert!(rt; Randomiser::new(0, 64, 64).is_none());
    Ok(())
}
