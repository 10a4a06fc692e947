// Puts a station on an LDACS reverse link and one on the UAT uplink into service, tries every call on them, and prints what each answers.
#![tactic(auto)]

mod desk;
mod print;
mod sample;
mod service;

use anyhow::Context;
use desk::Desk;
use line::line::Line;
use plan::listed::listed_plan;
use plan::plan::coder::Coder;
use print::{print_counts, print_read, print_refused, print_write};
use sample::Sample;
use service::{Verdict, leave_early, take, take_astray};
use stack::bare::Bare;
use stack::carrier::Carrier;
use stack::fault::Reported;
use station::idle::Idle;
use station::tuned::Tuned;
use std::mem;

// The listed plans of the two links.
const REVERSE_LINK: u8 = 38;

const UPLINK: u8 = 2;

// The coder of the LDACS reverse link, for soft readings.
fn reverse_link() -> Option<Coder<Line<i8>>> {
    let plan = listed_plan(REVERSE_LINK)?;
    let line = plan.line::<i8>()?;
    plan.on(line).ok()
}

// The coder of the UAT uplink.
fn uplink() -> Option<Coder<Bare>> {
    let plan = listed_plan(UPLINK)?;
    let bare = plan.bare()?;
    plan.on(bare).ok()
}

// Writes a block, after two writes that do not fit.
fn write<R: Sample, C: Carrier<Reading = R>>(
    rt: &HostRuntime,
    station: &mut Tuned<C>,
    desk: &mut Desk<R>,
) -> anyhow::Result<()> {
    desk.lay();
    let short = station.write(&mut desk.first, &mut [], &mut desk.symbols);
    print_write(rt, "write with an empty second buffer", short)?;
    let narrow = station.write(&mut desk.first, &mut desk.second, &mut []);
    print_write(rt, "write with no room for symbols", narrow)?;
    let written = station.write(&mut desk.first, &mut desk.second, &mut desk.symbols);
    print_write(rt, "write", written)
}

// Reads what does not fit.
fn misread<R: Sample, C: Carrier<Reading = R>>(
    rt: &HostRuntime,
    station: &mut Tuned<C>,
    desk: &mut Desk<R>,
) -> anyhow::Result<()> {
    let second = mem::replace(&mut desk.second, Vec::new(rt.alloc()));
    let short = take(station, desk, Verdict::Declined);
    desk.second = second;
    print_read(rt, "read with an empty second buffer", short)?;
    let readings = mem::replace(&mut desk.readings, Vec::new(rt.alloc()));
    let none = take(station, desk, Verdict::Declined);
    desk.readings = readings;
    print_read(rt, "read of no readings", none)
}

// Reads the block that was sent, heard wrong where `is_wrong` says so, and answers it.
fn read<R: Sample, C: Carrier<Reading = R>, F: Fn(usize) -> bool>(
    rt: &HostRuntime,
    call: &str,
    station: &mut Tuned<C>,
    desk: &mut Desk<R>,
    is_wrong: F,
    verdict: Verdict,
) -> anyhow::Result<()>
    requires { F.IsAlwaysCallable is_wrong }
{
    desk.hear(is_wrong);
    let taken = take(station, desk, verdict);
    print_read(rt, call, taken)
}

// Hands an answer to the other station.
fn stray<R: Sample, C: Carrier<Reading = R>, D: Carrier>(
    rt: &HostRuntime,
    station: &mut Tuned<C>,
    other: &mut Tuned<D>,
    desk: &mut Desk<R>,
) -> anyhow::Result<()> {
    desk.hear(|_| false);
    match take_astray(station, other, desk) {
        Ok(strayed) => {
            if let Some(report) = strayed.refusal {
                print_refused(rt, "read, and acknowledge at the other station", report)?;
            }
            println!(rt; "acknowledge: block {}", strayed.block)?;
            Ok(())
        }
        Err(refusal) => print_refused(rt, "read", refusal.report()),
    }
}

// Tries to untune while an answer is held.
fn stay<R: Sample, C: Carrier<Reading = R> + Drop>(
    rt: &HostRuntime,
    station: Tuned<C>,
    desk: &mut Desk<R>,
) -> anyhow::Result<Tuned<C>> {
    let kept = leave_early(station, desk);
    match kept.outcome {
        Ok(held) => {
            print_counts(rt, "read, with its answer held", held.counts)?;
            print_refused(rt, "untune", held.refusal)?;
            println!(rt; "decline: block {}", held.block)?;
        }
        Err(refusal) => print_refused(rt, "read", refusal.report())?,
    }
    Ok(kept.station)
}

// Every call on a station, with another one beside it; a burst of so many symbols is borne.
fn serve<R: Sample, C: Carrier<Reading = R> + Drop, D: Carrier>(
    rt: &HostRuntime,
    mut station: Tuned<C>,
    other: &mut Tuned<D>,
    desk: &mut Desk<R>,
    burst: usize,
) -> anyhow::Result<Tuned<C>> {
    println!(rt;
        "a body of {} bytes is a block of {} symbols",
        desk.body,
        desk.symbols.len()
    )?;
    write(rt, &mut station, desk)?;
    misread(rt, &mut station, desk)?;
    read(
        rt,
        "read",
        &mut station,
        desk,
        |_| false,
        Verdict::Acknowledged,
    )?;
    let damaged = format!(in rt.alloc(); "read with {burst} neighbouring symbols damaged")?;
    read(
        rt,
        damaged.as_str(),
        &mut station,
        desk,
        |place| place < burst,
        Verdict::Declined,
    )?;
    read(
        rt,
        "read with every third symbol damaged",
        &mut station,
        desk,
        |place| place % 3 == 0,
        Verdict::Acknowledged,
    )?;
    stray(rt, &mut station, other, desk)?;
    stay(rt, station, desk)
}

// Takes a station out of service.
fn retire<C: Carrier + Drop>(rt: &HostRuntime, station: Tuned<C>) -> anyhow::Result<()> {
    match station.untune() {
        Ok(parts) => {
            println!(rt;
                "untune: station {} is idle; written {}, {} symbols and {} bytes corrected in all",
                parts.idle.number(),
                parts.counts.written,
                parts.counts.symbols,
                parts.counts.bytes
            )?;
            print_counts(rt, "in all", parts.counts)
        }
        Err(owing) => print_refused(rt, "untune", owing.report()),
    }
}

// Serves both stations, each with the other beside it.
fn run(rt: &HostRuntime) -> anyhow::Result<()> {
    let heap = rt.alloc();
    let link = reverse_link().context("no reverse link")?;
    let up = uplink().context("no uplink")?;
    let mut soft = Desk::new(heap, &link)?;
    let mut bytes = Desk::new(heap, &up)?;
    let ldacs = Idle::new(101).tune(link);
    let mut uat = Idle::new(202).tune(up);
    println!(rt; "station 101 is tuned to an LDACS reverse link, plan {REVERSE_LINK}")?;
    let mut ldacs = serve(rt, ldacs, &mut uat, &mut soft, 40)?;
    println!(rt; "station 202 is tuned to the UAT uplink, plan {UPLINK}")?;
    let uat = serve(rt, uat, &mut ldacs, &mut bytes, 60)?;
    retire(rt, ldacs)?;
    retire(rt, uat)
}

// Runs; refusal 9 is left out, since it takes 65,535 blocks.
fn main(rt: HostRuntime) -> anyhow::Result<()> {
    run(&rt)
}
