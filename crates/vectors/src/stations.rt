// A station in service: a write, reads, answers, and what is refused.
use samples::erasing::Erasing;
use stack::fault::Reported;
use station::answer::Given;
use station::idle::Idle;
use station::refusal::ReadRefusal;
use station::tuned::Tuned;
use std::test::Fail;

// Reads two bytes and acknowledges them: the block's number, or why it was refused. An answer that was just given is accepted: that is proved, so the other case is unreachable.
fn take(station: &mut Tuned<Erasing>, readings: &[Option<u8>]) -> Result<u32, ReadRefusal> {
    let mut first = [0u8; 2];
    let mut second = [0u8; 2];
    let Given {
        corrections: _,
        answer,
    } = station.read(&mut first, &mut second, &mut [], readings)?;
    match station.acknowledge(answer) {
        Ok(block) => Ok(block),
        Err(_) => unreachable(),
    }
}

// Reads that are refused late count as tried, reads that are refused early do not.
#[test]
fn service(rt: HostRuntime) -> Result<(), Fail> {
    let carrier = Erasing::new(2).ok_or_else(|| Fail::new("carrier"))?;
    let mut station = Idle::new(7).tune(carrier);
    let mut a = [1u8, 2];
    let mut b = [7u8; 2];
    let mut m = [0u8; 2];
    assert!(rt; station.write(&mut a, &mut b, &mut m).is_ok());
    assert!(rt; m == [1, 2] && a == [0, 0]);
    let erased = take(&mut station, &[Some(1), None]);
    assert!(rt; erased.is_err_and(|refusal| refusal.report().number == 101));
    let short = take(&mut station, &[Some(1)]);
    assert!(rt; short.is_err_and(|refusal| refusal.report().number == 4));
    assert_eq!(rt; take(&mut station, &[Some(1), Some(2)]).ok(), Some(2));
    let counts = station.count();
    assert!(rt; counts.written == 1 && counts.tried == 2 && counts.given == 1);
    assert!(rt; counts.refused == 1 && counts.acknowledged == 1 && counts.declined == 0);
    let parts = station.untune().map_err(|_| Fail::new("owes"))?;
    assert_eq!(rt; parts.idle.number(), 7);
    Ok(())
}
