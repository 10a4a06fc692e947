// A line for each call: what was tried, and what was answered.
use crate::service::Taken;
use stack::fault::{Report, Reported};
use station::counts::Counts;
use station::refusal::{ReadRefusal, WriteRefusal};

// A call that was refused.
pub fn print_refused(rt: &HostRuntime, call: &str, report: Report) -> anyhow::Result<()> {
    println!(rt;
        "{call}: refused {}, depth {}, place {}",
        report.number, report.depth, report.place
    )?;
    Ok(())
}

// A write.
pub fn print_write(
    rt: &HostRuntime,
    call: &str,
    outcome: Result<(), WriteRefusal>,
) -> anyhow::Result<()> {
    match outcome {
        Ok(()) => {
            println!(rt; "{call}: written")?;
            Ok(())
        }
        Err(refusal) => print_refused(rt, call, refusal.report()),
    }
}

// A read, and what was said to the block.
pub fn print_read(
    rt: &HostRuntime,
    call: &str,
    outcome: Result<Taken, ReadRefusal>,
) -> anyhow::Result<()> {
    match outcome {
        Ok(taken) => {
            let body = if taken.is_back {
                "as sent"
            } else {
                "not as sent"
            };
            println!(rt;
                "{call}: block {}, body {body}, {} symbols and {} bytes corrected; {}",
                taken.block, taken.corrections.symbols, taken.corrections.bytes, taken.verdict
            )?;
            Ok(())
        }
        Err(refusal) => print_refused(rt, call, refusal.report()),
    }
}

// The counts, as they add up.
pub fn print_counts(rt: &HostRuntime, when: &str, counts: Counts) -> anyhow::Result<()> {
    let given = counts.given;
    println!(rt;
        "{when}: tried {} = given {given} + refused {}; given {given} = acknowledged {} + declined {} + held {}",
        counts.tried,
        counts.refused,
        counts.acknowledged,
        counts.declined,
        counts.owed()
    )?;
    Ok(())
}
