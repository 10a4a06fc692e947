// Stacks of stages of several makes, with what they refuse.
use samples::erasing::Erasing;
use samples::marker::Marker;
use stack::bare::Bare;
use stack::carrier::Carrier;
use stack::fault::{Report, Reported};
use stack::stack::Stack;
use stages::check::CheckByte;
use std::test::Fail;

// A marker on a check byte on the bare carrier: each part refuses at its own depth, and leaves its buffers zero.
#[test]
fn depths(rt: HostRuntime) -> Result<(), Fail> {
    let bare = Bare::new(5).ok_or_else(|| Fail::new("bare"))?;
    let check_stage = CheckByte::new(4).ok_or_else(|| Fail::new("check"))?;
    let marker = Marker::new(3).ok_or_else(|| Fail::new("marker"))?;
    let low = Stack::new(check_stage, bare).map_err(|_| Fail::new("check on bare"))?;
    let stack = Stack::new(marker, low).map_err(|_| Fail::new("marker on check"))?;
    assert_eq!(rt; stack.height(), 3);
    let mut a = [1u8, 2, 3, 9, 9, 9];
    let mut b = [7u8; 6];
    let mut m = [0u8; 5];
    let mut t = [3u64; 1];
    assert!(rt; stack.put(&mut a, &mut b, &mut m).is_ok());
    assert!(rt; m[0] == 1 && m[1] == 2 && m[2] == 3 && m[3] == 165);
    assert!(rt; a == [0u8; 6] && b == [0u8; 6]);
    assert!(rt; stack.get(&mut a, &mut b, &mut t, &m).is_ok());
    assert!(rt; a == [1, 2, 3, 0, 0, 0]);
    m[0] ^= 1;
    let Err(refusal) = stack.get(&mut a, &mut b, &mut t, &m) else {
        return Err(Fail::new("not refused"));
    };
    let at_one = Report {
        number: 6,
        depth: 1,
        place: 0,
    };
    assert_eq!(rt; refusal.report(), at_one);
    assert!(rt; a == [0u8; 6] && b == [0u8; 6]);
    Ok(())
}

// What was lent is judged before anything else: buffers first, then the list.
#[test]
fn misfits(rt: HostRuntime) -> Result<(), Fail> {
    let carrier = Erasing::new(3).ok_or_else(|| Fail::new("carrier"))?;
    let mut a = [1u8, 2, 3];
    let mut b = [7u8; 2];
    let mut t = [3u64; 1];
    let buffers = carrier.get(&mut a, &mut b, &mut t, &[Some(1), None]);
    assert!(rt; buffers.is_err_and(|refusal| refusal.report().number == 3));
    let mut c = [7u8; 3];
    let list = carrier.get(&mut a, &mut c, &mut t, &[Some(1), None]);
    assert!(rt; list.is_err_and(|refusal| refusal.report().number == 4));
    assert!(rt; a == [1, 2, 3] && c == [7, 7, 7]);
    let Err(refusal) = carrier.get(&mut a, &mut c, &mut t, &[Some(1), None, Some(2)]) else {
        return Err(Fail::new("not refused"));
    };
    assert_eq!(rt; refusal.report(), Report::numbered(101));
    assert!(rt; a == [0u8; 3] && c == [0u8; 3]);
    Ok(())
}

// A stage that does not meet its carrier is handed back.
#[test]
fn unstacked(rt: HostRuntime) -> Result<(), Fail> {
    let bare = Bare::new(5).ok_or_else(|| Fail::new("bare"))?;
    let marker = Marker::new(3).ok_or_else(|| Fail::new("marker"))?;
    let Err(parts) = Stack::new(marker, bare) else {
        return Err(Fail::new("not refused"));
    };
    assert_eq!(rt; parts.report().number, 2);
    assert_eq!(rt; parts.carrier.body_length(), 5);
    Ok(())
}
