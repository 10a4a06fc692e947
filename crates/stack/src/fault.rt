// Why stages, carriers and stacks refuse, with each refusal's number, depth and place.
ghost use Rattle.std.specs.Prelude.{◌≡◌};
ghost use Rattle.stack.specs.Faults.{Late, fault_number, fault_place, misfit_report, fault_report, reported, numbered, at_top, early, late};

use std::fmt;

// Why one part of a stack, a stage or the carrier at its foot, refuses what it was given to read.
#[derive(Clone, Copy, Debug, PartialEq, Eq)]
pub enum Fault {
    // No code word is near enough to this word.
    NoCodeWord { word: u32 },
    // The check byte is not that of the body.
    CheckByte,
    // A refusal of another make: number 100 + code, with a place of its own.
    Other { code: u16, place: u32 },
}

// Why a carrier refuses readings: the part that did, by its depth below the top.
#[derive(Clone, Copy, Debug, PartialEq, Eq)]
pub struct CarrierFault {
    pub depth: u32,
    pub fault: Fault,
}

// Lent memory that does not fit the carrier.
#[derive(Clone, Copy, Debug, PartialEq, Eq)]
pub enum Misfit {
    // The byte buffers are unequal in length, or a buffer is shorter than its need.
    Buffers,
    // The list of symbols or readings is not as long as the air block.
    AirLength,
}

// Why `get` refuses: before it looks at the readings, or for what they say.
#[derive(Clone, Copy, Debug, PartialEq, Eq)]
pub enum Refusal {
    Early(Misfit),
    Late(CarrierFault),
}

// A refusal in numbers, as it is printed and logged.
#[derive(Clone, Copy, Debug, PartialEq, Eq)]
pub struct Report {
    pub number: u32,
    pub depth: u32,
    pub place: u32,
}

// A refusal that can be told in numbers.
pub trait Reported {
    ghost use Rattle.stack.specs.declared.fault.Report.{Report};

    // What it is told as.
    ghost told: { Self → Report };

    // This refusal in numbers.
    fn report(&self) -> Report
        ensures { result ≡ told self.now };
}

impl Report {
    // The report of a refusal that has a number alone.
    pub fn numbered(number: u32) -> Report
        ensures { result ≡ numbered number }
    {
        Report {
            number,
            depth: 0,
            place: 0,
        }
    }
}

// The three numbers, as programs print them.
impl fmt::Display for Report {
    fn fmt<W: fmt::Write>(&self, f: &mut fmt::Formatter<W>) -> fmt::Result {
        write!(f, "{} {} {}", self.number, self.depth, self.place)
    }
}

impl Fault {
    // The number of this refusal: one given to a make of this repository, or 100 and up.
    pub fn number(&self) -> u32
        ensures value { result ≡ fault_number self.now }
        ensures late_number { Late result }
    {
        match *self {
            Fault::NoCodeWord { .. } => 5,
            Fault::CheckByte => 6,
            Fault::Other { code, .. } => 100 + u32::from(code),
        }
    }

    // Where in the body it was found, as the make counts.
    pub fn place(&self) -> u32
        ensures { result ≡ fault_place self.now }
    {
        match *self {
            Fault::NoCodeWord { word } => word,
            Fault::CheckByte => 0,
            Fault::Other { place, .. } => place,
        }
    }
}

impl Reported for Misfit {
    ghost told = { misfit_report };

    fn report(&self) -> Report {
        Report::numbered(match *self {
            Misfit::Buffers => 3,
            Misfit::AirLength => 4,
        })
    }
}

impl Reported for CarrierFault {
    ghost told = { fault_report };

    fn report(&self) -> Report {
        Report {
            number: self.fault.number(),
            depth: self.depth,
            place: self.fault.place(),
        }
    }
}

impl Reported for Refusal {
    ghost told = { reported };

    fn report(&self) -> Report {
        match self {
            Refusal::Early(misfit) => misfit.report(),
            Refusal::Late(fault) => fault.report(),
        }
    }
}

impl From<Fault> for CarrierFault {
    ghost from_gives = { λ f r. r ≡ at_top f };

    fn from(fault: Fault) -> CarrierFault {
        CarrierFault { depth: 0, fault }
    }
}

impl From<Misfit> for Refusal {
    ghost from_gives = { λ m r. r ≡ early m };

    fn from(misfit: Misfit) -> Refusal {
        Refusal::Early(misfit)
    }
}

impl From<CarrierFault> for Refusal {
    ghost from_gives = { λ f r. r ≡ late f };

    fn from(fault: CarrierFault) -> Refusal {
        Refusal::Late(fault)
    }
}
