// Takes a body, in hex on standard input, through the stages to an air block and back, and prints what takes place.
#![tactic(auto)]

ghost use Rattle.std.specs.Prelude.{◌≤◌, IfOk, length};

mod coder;
mod loopback;

use anyhow::Context;
use coder::{Coder, ERRORS, coder_for, words_for};
use loopback::loopback;
use stack::buffer::load;
use stack::carrier::Carrier;
use stack::corrections::Corrections;
use stack::fault::{Refusal, Reported};
use std::alloc::{AllocError, Global};
use std::process::ExitCode;

// Memory for the coder's calls: two byte buffers and a step buffer.
#[derive(Drop)]
struct Buffers {
    first: Vec<u8>,
    second: Vec<u8>,
    steps: Vec<u64>,
}

impl Buffers {
    // As much as the coder needs, with room for a body of so many bytes.
    fn new(heap: Global, coder: &Coder, size: usize) -> Result<Buffers, AllocError>
        ensures { IfOk result (λ lent. size ≤ length lent.first.items) }
    {
        let need = coder.byte_need().max(size);
        Ok(Buffers {
            first: vec![in heap; 0u8; need]?,
            second: vec![in heap; 0u8; need]?,
            steps: vec![in heap; 0u64; coder.step_need()]?,
        })
    }

    // The first so many bytes of the first buffer, or all of it where it has fewer.
    fn body(&self, size: usize) -> &[u8] {
        self.first.get(..size).unwrap_or(&self.first)
    }
}

// The body that the first line of the input says.
fn read_body(rt: &HostRuntime) -> anyhow::Result<Vec<u8>> {
    let mut line = String::new(rt.alloc());
    rt.read_line(&mut line)?;
    Ok(hex_text::parse(rt.alloc(), line.trim().as_bytes())?)
}

// Prints what a read gave: the counts and the body, or the refusal.
fn print_outcome(
    rt: &HostRuntime,
    label: &str,
    outcome: Result<Corrections, Refusal>,
    body: &[u8],
) -> anyhow::Result<()> {
    match outcome {
        Ok(counts) => {
            let shown = hex_text::show(rt.alloc(), body)?;
            println!(rt; "{label} ok {counts} {shown}")?;
        }
        Err(refusal) => println!(rt; "{label} refused {}", refusal.report())?,
    }
    Ok(())
}

// Flips every bit of so many neighbouring symbols, from the third on.
fn damage(block: &mut [u8], count: usize) {
    for symbol in block.iter_mut().skip(2).take(count) {
        *symbol = !*symbol;
    }
}

// Reads a block with so many neighbouring symbols damaged, and prints what comes of it.
fn read_damaged(
    rt: &HostRuntime,
    coder: &Coder,
    sent: &[u8],
    damaged: usize,
) -> anyhow::Result<()> {
    let heap = rt.alloc();
    let length = coder.body_length();
    let mut lent = Buffers::new(heap, coder, length)?;
    let mut block = sent.to_vec(heap)?;
    damage(&mut block, damaged);
    let outcome = coder.get(&mut lent.first, &mut lent.second, &mut lent.steps, &block);
    let label = format!(in heap; "burst of {damaged}")?;
    print_outcome(rt, label.as_str(), outcome, lent.body(length))
}

// Puts a body on the air, reads it back clean, and reads it back with the longest burst that is always borne and with one symbol more.
fn run(rt: &HostRuntime) -> anyhow::Result<()> {
    let heap = rt.alloc();
    let body = read_body(rt)?;
    let length = body.len();
    let coder = coder_for(length).context(
        "the body, with its check byte, does not divide into at most 16 words of at most 249 bytes",
    )?;
    let air = coder.air_length();
    let words = words_for(length.saturating_add(1));
    println!(rt;
        "check byte, randomiser, Reed-Solomon of {words} words with {ERRORS} errors each, interleaver, bare carrier: {length} bytes to {air}"
    )?;

    let mut lent = Buffers::new(heap, &coder, length)?;
    let mut block = vec![in heap; 0u8; air]?;
    load(&mut lent.first, &body);
    let clean = loopback(
        &coder,
        &mut lent.first,
        &mut lent.second,
        &mut lent.steps,
        &mut block,
    );
    let sent = hex_text::show(heap, &block)?;
    println!(rt; "block {sent}")?;
    print_outcome(rt, "clean", clean, lent.body(length))?;
    let borne = words.saturating_mul(ERRORS);
    read_damaged(rt, &coder, &block, borne)?;
    read_damaged(rt, &coder, &block, borne.saturating_add(1))
}

// Runs, and says on standard error what is wrong with the input.
fn main(rt: HostRuntime) -> ExitCode {
    if let Err(fault) = run(&rt) {
        // Where not even that can be said, the status says it.
        let _ = eprintln!(rt; "airblock: {fault}");
        return ExitCode::FAILURE;
    }
    ExitCode::SUCCESS
}
