// Judging a book before its first entry is run.
ghost use Rattle.std.specs.Prelude.{◌≡◌, ◌+◌, ◌*◌, ◌<◌, ◌≤◌, Bool, true, ◌&&◌, length, if◌then◌else◌, Some, None, MatchResult};
ghost use Rattle.limits.specs.Limits.{on_bare, air_length};
ghost use Rattle.book.specs.Contents.{line_at, count as entry_count, contents_end};
ghost use Rattle.book.specs.Jobs.{JobOf};
ghost use Rattle.book.specs.Judging.{allowed, asked, lent_enough, kind_needs, and_needs, needs_before, entry_wrong, parts_wrong, file_wrong, Covered, OtherWidth};

use crate::contents::{Kind, read_line};
use crate::fault::BookFault;
use crate::job::{Job, Lent, Needs};
use plan::listed::listed_plan;
use plan::plan::Plan;

// Whether entries of a kind are for a plan's carrier.
fn is_allowed(kind: Kind, plan: &Plan) -> bool
    ensures { result ≡ allowed kind plan.now.numbers }
{
    match kind {
        Kind::Body | Kind::Block => true,
        Kind::Soft | Kind::Samples => !plan.is_bare(),
    }
}

// How many bytes an entry of a kind has.
fn asked_length(kind: Kind, plan: &Plan) -> usize
    ensures { result ≡ asked kind plan.now.numbers }
{
    match kind {
        Kind::Body => plan.body_length(),
        Kind::Block | Kind::Soft => plan.air_length(),
        Kind::Samples => 2 * plan.air_length(),
    }
}

// What entry e, from 0, is to be done, if it starts at `start` and is as its plan and kind ask.
pub fn judge_entry(file: &[u8], e: usize, start: usize) -> Result<Job, BookFault>
    requires { (2 + 6 * e + 6 ≤ length file.now) × (e < 32) }
    ensures { MatchResult result (λ j. (entry_wrong (e + 1) start (line_at file.now e) ≡ None) × JobOf (line_at file.now e) j) (λ w. entry_wrong (e + 1) start (line_at file.now e) ≡ Some w) }
{
    let entry = e as u32 + 1;
    let line = read_line(file, e);
    if line.start != start {
        return Err(BookFault::Start { entry });
    }
    let plan = listed_plan(line.plan).ok_or(BookFault::Unlisted { entry })?;
    let kind = Kind::try_from(line.kind).map_err(|_| BookFault::Kind { entry })?;
    if !is_allowed(kind, &plan) {
        return Err(BookFault::Kind { entry });
    }
    if line.length != asked_length(kind, &plan) {
        return Err(BookFault::Length { entry });
    }
    Ok(Job {
        plan,
        kind,
        start: line.start,
        length: line.length,
    })
}

// How many hard readings a block has.
fn hard_need(plan: &Plan) -> usize
    ensures { result ≡ (if on_bare plan.now.numbers then 0 else air_length plan.now.numbers) }
{
    if plan.is_bare() { 0 } else { plan.air_length() }
}

impl Job {
    // How long the buffers must be for the job.
    fn needs(&self) -> Needs
        ensures value { result ≡ kind_needs self.now.kind self.now.plan.numbers }
        ensures high { result.results ≤ 98304 }
    {
        let plan = &self.plan;
        let bytes = plan.coded_length();
        let steps = plan.step_need();
        let air = plan.air_length();
        let body = plan.body_length();
        match self.kind {
            Kind::Body => Needs {
                bytes,
                steps: 0,
                hard: 0,
                soft: 0,
                results: air,
            },
            Kind::Block => Needs {
                bytes,
                steps,
                hard: hard_need(plan),
                soft: 0,
                results: body,
            },
            Kind::Soft | Kind::Samples => Needs {
                bytes,
                steps,
                hard: 0,
                soft: air,
                results: body,
            },
        }
    }
}

impl Needs {
    // How long the buffers must be for one job after another.
    fn and(self, other: Needs) -> Needs
        requires { (self.results ≤ 4194304) × (other.results ≤ 98304) }
        ensures { result ≡ and_needs self other }
    {
        Needs {
            bytes: self.bytes.max(other.bytes),
            steps: self.steps.max(other.steps),
            hard: self.hard.max(other.hard),
            soft: self.soft.max(other.soft),
            results: self.results + other.results,
        }
    }

    // Whether what was lent is long enough, and the list of records has room for every entry.
    pub fn met(&self, entries: usize, lent: &Lent) -> bool
        ensures { result ≡ lent_enough self.now entries lent.now.first lent.now.second lent.now.steps lent.now.hard lent.now.soft lent.now.results lent.now.records }
    {
        lent.first == lent.second
            && self.bytes <= lent.first
            && self.steps <= lent.steps
            && self.hard <= lent.hard
            && self.soft <= lent.soft
            && self.results <= lent.results
            && entries <= lent.records
    }
}

// Judges every entry and the end of the last, and says how long the buffers must be.
fn judge_parts(file: &[u8], count: usize) -> Result<Needs, BookFault>
    requires { (count ≡ entry_count file.now) × ((count ≤ 32) × (contents_end file.now ≤ length file.now)) }
    ensures { MatchResult result (λ n. (parts_wrong file.now ≡ None) × (n ≡ needs_before file.now count)) (λ w. parts_wrong file.now ≡ Some w) }
{
    let mut start = 2 + 6 * count;
    let mut needs = Needs::default();
    for e in 0..count {
        let job = judge_entry(file, e, start)?;
        needs = needs.and(job.needs());
        start += job.length;
    }
    if start != file.len() {
        return Err(BookFault::Start {
            entry: count as u32,
        });
    }
    Ok(needs)
}

// Judges a file: how many entries it has and what they need, or what is wrong with it.
pub fn judge_file(file: &[u8]) -> Result<(usize, Needs), BookFault>
    ensures judged { MatchResult result (λ p. (file_wrong file.now ≡ None) × (p.0 ≡ entry_count file.now) × (p.1 ≡ needs_before file.now (entry_count file.now))) (λ w. file_wrong file.now ≡ Some w) }
    ensures covered { file_wrong file.now ≡ None → Covered file.now }
    ensures other_width { OtherWidth file.now }
{
    if file.len() < 2 || file.len() > 60000 {
        return Err(BookFault::Size);
    }
    if file[0] != 6 {
        return Err(BookFault::Width);
    }
    let count = usize::from(file[1]);
    if count < 1 || count > 32 {
        return Err(BookFault::Count);
    }
    if file.len() < 2 + 6 * count {
        return Err(BookFault::Size);
    }
    let needs = judge_parts(file, count)?;
    Ok((count, needs))
}
