// Why a book is refused before its first entry is run, and why an entry is refused when it is.
ghost use Rattle.std.specs.Prelude.{◌≡◌};
ghost use Rattle.book.specs.Faults.{book_report, entry_report};

use stack::fault::{CarrierFault, Report, Reported};
use std::fmt;

// Why a whole book is refused; entries are numbered from 1.
#[derive(Clone, Copy, Debug, PartialEq, Eq)]
pub enum BookFault {
    // The file is shorter than 2 bytes, longer than 60,000, or shorter than its contents.
    Size,
    // The entries are not six bytes wide.
    Width,
    // There are no entries, or more than 32.
    Count,
    // The entry does not start where the one before it ended, or the last does not end with the file.
    Start { entry: u32 },
    // The entry's plan is not listed.
    Unlisted { entry: u32 },
    // The entry's kind is unknown, or not for its plan's carrier.
    Kind { entry: u32 },
    // The entry is not as long as its plan and kind ask.
    Length { entry: u32 },
    // A lent buffer, or the list of records, is too short for the job, or the byte buffers are unequal.
    Buffers,
}

// Why one entry is refused.
#[derive(Clone, Copy, Debug, PartialEq, Eq)]
pub enum EntryFault {
    // A byte of a block of marks is neither 0, 1 nor 2, at this offset in the entry.
    Mark { offset: u32 },
    // The plan's stack refuses the readings.
    Coding(CarrierFault),
}

// A refused book in numbers, as it is printed: the entry is 0 where none is meant.
#[derive(Clone, Copy, Debug, PartialEq, Eq)]
pub struct BookReport {
    pub number: u32,
    pub entry: u32,
}

impl fmt::Display for BookReport {
    fn fmt<W: fmt::Write>(&self, f: &mut fmt::Formatter<W>) -> fmt::Result {
        write!(f, "{} {}", self.number, self.entry)
    }
}

impl BookFault {
    // This refusal in numbers.
    pub fn report(&self) -> BookReport
        ensures { result ≡ book_report self.now }
    {
        let (number, entry) = match *self {
            BookFault::Size => (10, 0),
            BookFault::Width => (11, 0),
            BookFault::Count => (12, 0),
            BookFault::Start { entry } => (13, entry),
            BookFault::Unlisted { entry } => (14, entry),
            BookFault::Kind { entry } => (15, entry),
            BookFault::Length { entry } => (16, entry),
            BookFault::Buffers => (3, 0),
        };
        BookReport { number, entry }
    }
}

impl Reported for EntryFault {
    ghost told = { entry_report };

    fn report(&self) -> Report {
        match self {
            EntryFault::Mark { offset } => Report {
                number: 17,
                depth: 0,
                place: *offset,
            },
            EntryFault::Coding(fault) => fault.report(),
        }
    }
}
