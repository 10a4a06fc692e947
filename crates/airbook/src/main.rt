// Runs a book from standard input to its last entry, and prints what became of each entry; or why the book is refused.
#![tactic(auto)]

ghost use Rattle.std.specs.Prelude.{◌≡◌, ◌↔◌, IsTrue, map, IfOk, string_bytes};
ghost use Rattle.airbook.specs.Digits.{digit, IsLineBlock};

use book::contents::{EntryLine, Kind};
use book::entry::Entry;
use book::run::run_book;
use plan::listed::listed_plan;
use stack::corrections::Corrections;
use stack::fault::Reported;
use std::io::Read;
use std::process::ExitCode;

// A book of this size is too long, so no more is read.
const ENOUGH: usize = 60_001;

// The bytes of the result buffer.
const RESULTS: usize = 65_536;

// The most bytes, steps and readings that any plan asks for.
const BYTES: usize = 4_080;

const STEPS: usize = 8 * BYTES + 6;

const READINGS: usize = 98_304;

// The book on standard input, at most one byte more than a book may have.
fn read_input(rt: &HostRuntime) -> anyhow::Result<Vec<u8>> {
    // With room for one byte more, reading to the end asks for no other memory.
    let mut bytes = Vec::with_capacity(rt.alloc(), ENOUGH + 1)?;
    rt.stdin().take(ENOUGH as u64).read_to_end(&mut bytes)?;
    Ok(bytes)
}

// Whether an entry's result is a block on the line, which is printed as digits.
fn is_marks(line: &EntryLine) -> bool
    ensures { IsTrue result ↔ IsLineBlock line.now }
{
    match (Kind::try_from(line.kind), listed_plan(line.plan)) {
        (Ok(Kind::Body), Some(plan)) => !plan.is_bare(),
        _ => false,
    }
}

// Marks as digits.
fn show_marks(rt: &HostRuntime, marks: &[u8]) -> anyhow::Result<String>
    ensures { IfOk result (λ s. string_bytes s ≡ map digit marks.now) }
{
    let mut text = String::new(rt.alloc());
    for mark in marks {
        text.push(if *mark == 0 { '0' } else { '1' })?;
    }
    Ok(text)
}

// Prints what became of an entry.
fn print_entry(
    rt: &HostRuntime,
    number: usize,
    entry: &Entry,
    results: &[u8],
) -> anyhow::Result<()> {
    let counts = match entry.answer {
        Ok(counts) => counts,
        Err(fault) => {
            println!(rt; "{} refused {}", number, fault.report())?;
            return Ok(());
        }
    };
    let end = entry.place.saturating_add(entry.size);
    let part = results.get(entry.place..end).unwrap_or(results);
    let text = if is_marks(&entry.line) {
        show_marks(rt, part)?
    } else {
        hex_text::show(rt.alloc(), part)?
    };
    println!(rt; "{number} ok {counts} {text}")?;
    Ok(())
}

// A record that nothing was entered in.
fn blank() -> Entry {
    Entry {
        line: EntryLine::default(),
        place: 0,
        size: 0,
        answer: Ok(Corrections::default()),
    }
}

// Lends buffers, runs the book and prints the outcome.
fn run(rt: &HostRuntime) -> anyhow::Result<()> {
    let heap = rt.alloc();
    let file = read_input(rt)?;
    let mut records = [blank(); 32];
    let mut results = vec![in heap; 0u8; RESULTS]?;
    let mut first = vec![in heap; 0u8; BYTES]?;
    let mut second = vec![in heap; 0u8; BYTES]?;
    let mut steps = vec![in heap; 0u64; STEPS]?;
    let mut hard = vec![in heap; None; READINGS]?;
    let mut soft = vec![in heap; 0i8; READINGS]?;
    match run_book(
        &file,
        &mut records,
        &mut results,
        &mut first,
        &mut second,
        &mut steps,
        &mut hard,
        &mut soft,
    ) {
        Ok(count) => {
            for (i, entry) in records.iter().enumerate().take(count) {
                print_entry(rt, i + 1, entry, &results)?;
            }
        }
        Err(fault) => {
            println!(rt; "book refused {}", fault.report())?;
        }
    }
    Ok(())
}

// Runs, and says on standard error what went wrong with reading or printing.
fn main(rt: HostRuntime) -> ExitCode {
    if let Err(fault) = run(&rt) {
        // Where not even that can be said, the status says it.
        let _ = eprintln!(rt; "airbook: {fault}");
        return ExitCode::FAILURE;
    }
    ExitCode::SUCCESS
}
