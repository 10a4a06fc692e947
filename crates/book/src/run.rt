// Running the entries of a book.
ghost use Rattle.std.specs.Prelude.{◌≡◌, ◌+◌, ◌*◌, ◌<◌, ◌≤◌, true, false, map, length, take, replicate, pos, None, MatchResult};
ghost use Rattle.plan.specs.Calls.{plan_sent};
ghost use Rattle.limits.specs.Limits.{body_length, coded_length};
ghost use Rattle.limits.specs.Limits.{air_length, on_bare};
ghost use Rattle.plan.specs.Stacks.{bare_plan, line_plan};
ghost use Rattle.stack.specs.Buffers.{zeros, padded};
ghost use Rattle.readings.specs.Samples.{soft_of};
ghost use Rattle.book.specs.Contents.{count as entry_count};
ghost use Rattle.book.specs.Judging.{Enough, file_wrong, needs_before, result_length};
ghost use Rattle.book.specs.Running.{Idle, Reached, Recorded, BookRun, TwoRefusals, outcome, results_before, record_at, read, read_marks, read_soft, first_over, mark_of, signed, samples};
ghost use Rattle.book.specs.Handing.{MarkOf, FirstOver, LineBlock, RoomToRead, Fit, Done, OnlyLate, Answered, part_after, first_after, ReadEntry};

use crate::contents::{Kind, read_line};
use crate::entry::Entry;
use crate::fault::{BookFault, EntryFault};
use crate::job::{Job, Lent};
use crate::judge::{judge_entry, judge_file};
use plan::plan::Plan;
use plan::refusal::PlanRefusal;
use readings::reading::Reading;
use readings::sample::soft_of_sample;
use stack::buffer::{clear, load};
use stack::corrections::Corrections;
use stack::fault::Refusal;

// Writes a body: its block is left in `part`, and the buffers are zero.
fn write_body(plan: &Plan, body: &[u8], first: &mut [u8], second: &mut [u8], part: &mut [u8])
    requires body { length body.now ≡ body_length plan.now.numbers }
    requires room { (coded_length plan.now.numbers ≤ length first.old) × (length second.old ≡ length first.old) }
    requires air { length part.old ≡ air_length plan.now.numbers }
    ensures block { part.new ≡ plan_sent plan.now.numbers plan.now.unit body.now }
    ensures zeros { (first.new ≡ zeros (length first.old)) × (second.new ≡ zeros (length second.old)) }
{
    load(first, body);
    plan.put(first, second, part).unwrap();
}

// Hands up what a read gave: a body from the front of `first` to `part`, or the refusal.
fn hand_up(
    given: Result<Corrections, PlanRefusal>,
    first: &mut [u8],
    part: &mut [u8],
) -> Result<Corrections, EntryFault>
    requires late { OnlyLate given }
    requires room { length part.old ≤ length first.old }
    ensures answer { Answered given result }
    ensures part { part.new ≡ part_after given first.old part.old }
    ensures first { first.new ≡ first_after given first.old }
{
    match given {
        Ok(counts) => {
            let n = part.len();
            part.copy_from_slice(&first[..n]);
            clear(first);
            Ok(counts)
        }
        Err(PlanRefusal::Stack(Refusal::Late(at))) => Err(EntryFault::Coding(at)),
        Err(_) => unreachable(),
    }
}

// Reads a block of bytes.
fn read_bytes(
    plan: &Plan,
    block: &[u8],
    first: &mut [u8],
    second: &mut [u8],
    steps: &mut [u64],
    part: &mut [u8],
) -> Result<Corrections, EntryFault>
    requires bare { (on_bare plan.now.numbers ≡ true) × (length block.now ≡ air_length plan.now.numbers) }
    requires room { (coded_length plan.now.numbers ≤ length first.old) × (length second.old ≡ length first.old) }
    requires part { part.old ≡ zeros (body_length plan.now.numbers) }
    ensures { ReadEntry (read (body_length plan.now.numbers) ((bare_plan plan.now.numbers plan.now.unit).got block.now)) first.old second.old steps.old result part.new first.new second.new steps.new }
{
    let given = plan.get_bytes(first, second, steps, block);
    hand_up(given, first, part)
}

// Reads marks of a block on the line.
fn read_marks<R: Reading>(
    plan: &Plan,
    readings: &[R],
    first: &mut [u8],
    second: &mut [u8],
    steps: &mut [u64],
    part: &mut [u8],
) -> Result<Corrections, EntryFault>
    requires line { LineBlock plan.now.numbers (length readings.now) }
    requires room { RoomToRead plan.now.numbers first.old second.old steps.old }
    requires part { part.old ≡ zeros (body_length plan.now.numbers) }
    ensures { ReadEntry (read (body_length plan.now.numbers) ((line_plan R.Reading.cost R.Reading.clean plan.now.numbers plan.now.unit).got readings.now)) first.old second.old steps.old result part.new first.new second.new steps.new }
{
    let given = plan.get_marks(first, second, steps, readings);
    hand_up(given, first, part)
}

// The mark of a byte: 0, 1, and 2 for absent; any other byte is none.
fn mark_by_number(byte: u8) -> Option<Option<bool>>
    ensures { MarkOf byte result }
{
    match byte {
        0 => Some(Some(false)),
        1 => Some(Some(true)),
        2 => Some(None),
        _ => None,
    }
}

// Takes bytes to marks, or refuses the first byte that is none.
fn fill_hard(bytes: &[u8], marks: &mut [Option<bool>]) -> Result<(), EntryFault>
    requires { (length bytes.now ≡ length marks.old) × (length bytes.now ≤ 98304) }
    ensures { MatchResult result (λ u. (first_over 0 bytes.now ≡ None) × (marks.new ≡ map mark_of bytes.now)) (λ w. FirstOver bytes.now w) }
{
    for (i, mark) in marks.iter_mut().enumerate() {
        *mark = mark_by_number(bytes[i]).ok_or(EntryFault::Mark { offset: i as u32 })?;
    }
    Ok(())
}

// Takes bytes to soft readings.
fn fill_soft(bytes: &[u8], soft: &mut [i8])
    requires { length bytes.now ≡ length soft.old }
    ensures { soft.new ≡ map signed bytes.now }
{
    for (i, reading) in soft.iter_mut().enumerate() {
        *reading = bytes[i].cast_signed();
    }
}

// Takes pairs of bytes, samples of 16 bits, to soft readings.
fn fill_samples(bytes: &[u8], soft: &mut [i8])
    requires { length bytes.now ≡ 2 * length soft.old }
    ensures { soft.new ≡ map soft_of (samples bytes.now) }
{
    let (pairs, _) = bytes.as_chunks::<2>();
    for (i, reading) in soft.iter_mut().enumerate() {
        let sample = i16::from_be_bytes(pairs[i]);
        *reading = soft_of_sample(sample);
    }
}

// Reads a block of marks into `marks`, or refuses it for a byte that is none.
fn read_hard(
    plan: &Plan,
    bytes: &[u8],
    first: &mut [u8],
    second: &mut [u8],
    steps: &mut [u64],
    marks: &mut [Option<bool>],
    part: &mut [u8],
) -> Result<Corrections, EntryFault>
    requires line { LineBlock plan.now.numbers (length bytes.now) }
    requires room { RoomToRead plan.now.numbers first.old second.old steps.old }
    requires marks { length marks.old ≡ air_length plan.now.numbers }
    requires idle { (first.old ≡ zeros (length first.old)) × ((second.old ≡ zeros (length second.old)) × (steps.old ≡ zeros (length steps.old))) }
    requires part { part.old ≡ zeros (body_length plan.now.numbers) }
    ensures { ReadEntry (read_marks plan.now.numbers plan.now.unit bytes.now (first_over 0 bytes.now)) first.old second.old steps.old result part.new first.new second.new steps.new }
{
    fill_hard(bytes, marks)?;
    read_marks(plan, marks, first, second, steps, part)
}

// Reads a block of marks, or refuses it for a byte that is none, and leaves no mark behind.
fn run_hard(
    plan: &Plan,
    bytes: &[u8],
    first: &mut [u8],
    second: &mut [u8],
    steps: &mut [u64],
    hard: &mut [Option<bool>],
    part: &mut [u8],
) -> Result<Corrections, EntryFault>
    requires line { LineBlock plan.now.numbers (length bytes.now) }
    requires room { RoomToRead plan.now.numbers first.old second.old steps.old }
    requires marks { air_length plan.now.numbers ≤ length hard.old }
    requires idle { (first.old ≡ zeros (length first.old)) × ((second.old ≡ zeros (length second.old)) × (steps.old ≡ zeros (length steps.old))) }
    requires part { part.old ≡ zeros (body_length plan.now.numbers) }
    ensures read { ReadEntry (read_marks plan.now.numbers plan.now.unit bytes.now (first_over 0 bytes.now)) first.old second.old steps.old result part.new first.new second.new steps.new }
    ensures absent { hard.new ≡ replicate (length hard.old) None }
{
    let n = bytes.len();
    let answer = read_hard(plan, bytes, first, second, steps, &mut hard[..n], part);
    clear(hard);
    answer
}

// Reads a block of the soft readings at the front of `soft`, and leaves them all zero.
fn run_soft(
    plan: &Plan,
    first: &mut [u8],
    second: &mut [u8],
    steps: &mut [u64],
    soft: &mut [i8],
    part: &mut [u8],
) -> Result<Corrections, EntryFault>
    requires line { on_bare plan.now.numbers ≡ false }
    requires room { RoomToRead plan.now.numbers first.old second.old steps.old }
    requires readings { air_length plan.now.numbers ≤ length soft.old }
    requires part { part.old ≡ zeros (body_length plan.now.numbers) }
    ensures read { ReadEntry (read_soft plan.now.numbers plan.now.unit (take (air_length plan.now.numbers) soft.old)) first.old second.old steps.old result part.new first.new second.new steps.new }
    ensures zero { soft.new ≡ replicate (length soft.old) (pos 0) }
{
    let n = plan.air_length();
    let answer = read_marks(plan, &soft[..n], first, second, steps, part);
    clear(soft);
    answer
}

// Does a job: its result is left in `part`, zero where it is refused, and the working buffers hold nothing.
fn run_job(
    job: &Job,
    bytes: &[u8],
    first: &mut [u8],
    second: &mut [u8],
    steps: &mut [u64],
    hard: &mut [Option<bool>],
    soft: &mut [i8],
    part: &mut [u8],
) -> Result<Corrections, EntryFault>
    requires fit { Fit job.now.kind job.now.plan.numbers (length bytes.now) part.old (length first.old) (length second.old) (length steps.old) (length hard.old) (length soft.old) }
    requires idle { Idle first.old second.old steps.old hard.old soft.old }
    ensures { Done (outcome job.now.kind job.now.plan.numbers job.now.plan.unit bytes.now) result part.new first.new second.new steps.new hard.new soft.new }
{
    let plan = &job.plan;
    match job.kind {
        Kind::Body => {
            write_body(plan, bytes, first, second, part);
            Ok(Corrections::default())
        }
        Kind::Block => {
            if plan.is_bare() {
                read_bytes(plan, bytes, first, second, steps, part)
            } else {
                run_hard(plan, bytes, first, second, steps, hard, part)
            }
        }
        Kind::Soft => {
            fill_soft(bytes, &mut soft[..bytes.len()]);
            run_soft(plan, first, second, steps, soft, part)
        }
        Kind::Samples => {
            fill_samples(bytes, &mut soft[..bytes.len() / 2]);
            run_soft(plan, first, second, steps, soft, part)
        }
    }
}

impl Job {
    // How many bytes the job's result has.
    fn result_size(&self) -> usize
        ensures value { result ≡ result_length self.now.kind self.now.plan.numbers }
        ensures high { result ≤ 98304 }
    {
        match self.kind {
            Kind::Body => self.plan.air_length(),
            Kind::Block | Kind::Soft | Kind::Samples => self.plan.body_length(),
        }
    }
}

// Runs entry e, from 0, which starts at `start` and whose result lies at `place`.
fn run_entry(
    file: &[u8],
    e: usize,
    start: usize,
    place: usize,
    first: &mut [u8],
    second: &mut [u8],
    steps: &mut [u64],
    hard: &mut [Option<bool>],
    soft: &mut [i8],
    results: &mut [u8],
) -> Entry
    requires right { (file_wrong file.now ≡ None) × (e < entry_count file.now) }
    requires room { (Enough (needs_before file.now (entry_count file.now)) (length first.old) (length second.old) (length steps.old) (length hard.old) (length soft.old)) × ((needs_before file.now (entry_count file.now)).results ≤ length results.old) }
    requires reached { Reached file.now e start place results.old }
    requires idle { Idle first.old second.old steps.old hard.old soft.old }
    ensures record { result ≡ record_at file.now e }
    ensures reached { Reached file.now (e + 1) (start + result.line.length) (place + result.size) results.new }
    ensures bounds { (start + result.line.length ≤ length file.now) × (place + result.size ≤ length results.old) }
    ensures idle { Idle first.new second.new steps.new hard.new soft.new }
{
    let Ok(job) = judge_entry(file, e, start) else {
        unreachable()
    };
    let size = job.result_size();
    let bytes = &file[start..start + job.length];
    let part = &mut results[place..place + size];
    let answer = run_job(&job, bytes, first, second, steps, hard, soft, part);
    Entry {
        line: read_line(file, e),
        place,
        size,
        answer,
    }
}

// Runs every entry of an accepted book, one after another, and enters what became of each in its record.
fn run_entries(
    file: &[u8],
    first: &mut [u8],
    second: &mut [u8],
    steps: &mut [u64],
    hard: &mut [Option<bool>],
    soft: &mut [i8],
    results: &mut [u8],
    records: &mut [Entry],
)
    requires right { file_wrong file.now ≡ None }
    requires room { (Enough (needs_before file.now (entry_count file.now)) (length first.old) (length second.old) (length steps.old) (length hard.old) (length soft.old)) × (((needs_before file.now (entry_count file.now)).results ≤ length results.old) × (length records.old ≡ entry_count file.now)) }
    requires idle { (Idle first.old second.old steps.old hard.old soft.old) × (results.old ≡ zeros (length results.old)) }
    ensures records { Recorded file.now (entry_count file.now) records.old records.new }
    ensures results { results.new ≡ padded (length results.old) (results_before file.now (entry_count file.now)) }
    ensures idle { Idle first.new second.new steps.new hard.new soft.new }
{
    let mut start = 2 + 6 * records.len();
    let mut place = 0;
    for (e, record) in records.iter_mut().enumerate() {
        let entry = run_entry(
            file, e, start, place, first, second, steps, hard, soft, results,
        );
        *record = entry;
        start += entry.line.length;
        place += entry.size;
    }
}

// Sets working buffers and results to nothing.
fn clear_all(
    first: &mut [u8],
    second: &mut [u8],
    steps: &mut [u64],
    hard: &mut [Option<bool>],
    soft: &mut [i8],
    results: &mut [u8],
)
    ensures idle { Idle first.new second.new steps.new hard.new soft.new }
    ensures results { results.new ≡ zeros (length results.new) }
{
    clear(first);
    clear(second);
    clear(steps);
    clear(hard);
    clear(soft);
    clear(results);
}

// Judges a book and what was lent for it, and runs it to its last entry; answers how many entries it has.
pub fn run_book(
    file: &[u8],
    records: &mut [Entry],
    results: &mut [u8],
    first: &mut [u8],
    second: &mut [u8],
    steps: &mut [u64],
    hard: &mut [Option<bool>],
    soft: &mut [i8],
) -> Result<usize, BookFault>
    ensures ran { BookRun file.now records.old results.old first.old second.old steps.old hard.old soft.old result records.new results.new first.new second.new steps.new hard.new soft.new }
    ensures late { TwoRefusals file.now }
{
    let (count, needs) = judge_file(file)?;
    let lent = Lent {
        first: first.len(),
        second: second.len(),
        steps: steps.len(),
        hard: hard.len(),
        soft: soft.len(),
        results: results.len(),
        records: records.len(),
    };
    if !needs.met(count, &lent) {
        return Err(BookFault::Buffers);
    }
    clear_all(first, second, steps, hard, soft, results);
    let entries = &mut records[..count];
    run_entries(file, first, second, steps, hard, soft, results, entries);
    Ok(count)
}
