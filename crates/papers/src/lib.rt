// What is read of the two papers, and what refuses a call. The definitions of reading stand in specs/, their laws in proofs/; the
// functions that read are in the crates numbered, fields, content, reading, rest and folds.
#![tactic(auto)]

ghost use Rattle.std.specs.Prelude.{◌≡◌};
ghost use Rattle.papers.specs.Told.{fault_number, bare_number};

// The tags of a file's fields and of a sheet's. Bytes and no enum: any byte may stand where one is due.
pub mod tags {
    pub const EDITION: u8 = 0x01;

    pub const ATOMS: u8 = 0x02;

    pub const ABDUCIBLES: u8 = 0x03;

    pub const RULE: u8 = 0x04;

    pub const INTEGRITY: u8 = 0x05;

    pub const QUERY: u8 = 0x06;

    pub const END: u8 = 0x7F;
}

#[derive(Clone, Copy, PartialEq, Eq, Debug)]
pub enum Paper {
    File,
    Sheet,
}

// Document 01's refusals 1 to 10, each of which names a paper and a place.
#[derive(Clone, Copy, PartialEq, Eq, Debug)]
pub enum Fault {
    Cut,
    StrayField,
    Misfit,
    Edition,
    AtomCount,
    Unlisted,
    Disorder,
    FixedFault,
    Overfull,
    Tail,
}

impl Fault {
    // Its number in document 01.
    pub fn number(self) -> u8
        ensures { result ≡ fault_number self }
    {
        match self {
            Fault::Cut => 1,
            Fault::StrayField => 2,
            Fault::Misfit => 3,
            Fault::Edition => 4,
            Fault::AtomCount => 5,
            Fault::Unlisted => 6,
            Fault::Disorder => 7,
            Fault::FixedFault => 8,
            Fault::Overfull => 9,
            Fault::Tail => 10,
        }
    }

    pub fn at(self, paper: Paper, place: usize) -> Refusal
        ensures { result ≡ record { fault = self; paper = paper; place = place } }
    {
        Refusal {
            fault: self,
            paper,
            place,
        }
    }
}

#[derive(Clone, Copy, PartialEq, Eq, Debug)]
pub struct Refusal {
    pub fault: Fault,
    pub paper: Paper,
    pub place: usize,
}

// The papers' refusals that name no paper and no place.
#[derive(Clone, Copy, PartialEq, Eq, Debug)]
pub enum Bare {
    ShortDual,
    ShortModel,
    NoScenario,
    SpoiltSearch,
    SharedBit,
    UnlistedBit,
}

impl Bare {
    // Its number in the papers.
    pub fn number(self) -> u8
        ensures { result ≡ bare_number self }
    {
        match self {
            Bare::ShortDual => 11,
            Bare::ShortModel => 12,
            Bare::NoScenario => 13,
            Bare::SpoiltSearch => 14,
            Bare::SharedBit => 15,
            Bare::UnlistedBit => 16,
        }
    }
}

// Fields of one tag that were read: how many, and the place after them.
#[derive(Clone, Copy, Debug)]
pub struct Run {
    pub count: usize,
    pub next: usize,
}

// Fields of one tag in an accepted file: how many, and the place of the first.
#[derive(Clone, Copy, Debug)]
pub struct Fields {
    pub count: usize,
    pub place: usize,
}

// An accepted file. Its abducibles' field is at place 9, their numbers from place 12 on.
#[derive(Clone, Copy, Debug)]
pub struct Contents {
    pub atoms: u16,
    pub abducibles: usize,
    pub rules: Fields,
    pub integrity: Fields,
    pub end: usize,
}
