// The table of refusals (01, Refusal numbers; 16 and 17 by 02, M-103, 18 and 21 by M-105, 19 by M-108, 20 by M-109): one case for each row, in the table's order. A new row is a line of the enum
// `Refusal`, of `Entry`'s `from`, of `entry_of` in specs/Table.antt and of proofs/Numbers.antt.
#![tactic(auto)]

ghost use Rattle.std.specs.Prelude.{◌≡◌};
ghost use Rattle.refusal.specs.Table.{◌given◌, on_side, gas_number, side_number, entry_of, number_of, place_of};
ghost use Rattle.refusal.specs.Judging.{checked};

// The gases of a test, in the table's order.
#[derive(Clone, Copy, PartialEq, Eq, Debug)]
pub enum Gas {
    HC,
    CO,
    NOx,
    CO2,
    NMHC,
}

// Which of a gas's two readings.
#[derive(Clone, Copy, PartialEq, Eq, Debug)]
pub enum Side {
    Bag,
    Air,
}

// Seconds and parts count from 1, the records of a lot from 0. A field has its number in the sheet's listing. A reading's gas and side are the numbers of its place, whichever they
// are: who prints a refusal, or hands it on, asks for none that is a gas or a side.
#[derive(Clone, Copy, PartialEq, Eq, Debug)]
pub enum Refusal {
    Header,
    Count,
    Length,
    Second { second: u32 },
    Vehicle { field: u32 },
    Ratio { gear: u32 },
    PowerToMass,
    Room,
    TooClose { second: u32 },
    Parts,
    Value { part: u32, field: u32 },
    Reading { part: u32, gas: u32, side: u32 },
    Dilution { part: u32 },
    Humidity { part: u32 },
    PairCounts,
    ReferenceMass,
    RotatingOrSpeed,
    LotSize,
    Efficiencies,
    Marked { second: u32 },
    LotRecord { index: u32 },
}

// Where a refusal points: `at` is the second, the part, the gear, the vehicle sheet's field or the record of a lot, `within` the field or the gas of a part, and
// `side` the bag or the air. 0 stands where the table has nothing.
#[derive(Clone, Copy, PartialEq, Eq, Debug)]
pub struct Place {
    pub at: u32,
    pub within: u32,
    pub side: u32,
}

// A row of the table, as it is printed.
#[derive(Clone, Copy, PartialEq, Eq, Debug)]
pub struct Entry {
    pub number: u32,
    pub place: Place,
}

// A gas's number in a place.
impl From<Gas> for u32 {
    ghost from_gives = { λ gas number. number ≡ gas_number gas };

    fn from(gas: Gas) -> u32 {
        match gas {
            Gas::HC => 1,
            Gas::CO => 2,
            Gas::NOx => 3,
            Gas::CO2 => 4,
            Gas::NMHC => 5,
        }
    }
}

// A side's number in a place.
impl From<Side> for u32 {
    ghost from_gives = { λ side number. number ≡ side_number side };

    fn from(side: Side) -> u32 {
        match side {
            Side::Bag => 1,
            Side::Air => 2,
        }
    }
}

fn row(number: u32, at: u32, within: u32, side: u32) -> Entry
    ensures { result ≡ number given on_side at within side }
{
    Entry {
        number,
        place: Place { at, within, side },
    }
}

// The row of a refusal.
impl From<Refusal> for Entry {
    ghost from_gives = { λ refusal entry. entry ≡ entry_of refusal };

    fn from(refusal: Refusal) -> Entry {
        match refusal {
            Refusal::Header => row(1, 0, 0, 0),
            Refusal::Count => row(2, 0, 0, 0),
            Refusal::Length => row(3, 0, 0, 0),
            Refusal::Second { second } => row(4, second, 0, 0),
            Refusal::Vehicle { field } => row(5, field, 0, 0),
            Refusal::Ratio { gear } => row(6, gear, 0, 0),
            Refusal::PowerToMass => row(7, 0, 0, 0),
            Refusal::Room => row(8, 0, 0, 0),
            Refusal::TooClose { second } => row(9, second, 0, 0),
            Refusal::Parts => row(10, 0, 0, 0),
            Refusal::Value { part, field } => row(11, part, field, 0),
            Refusal::Reading { part, gas, side } => row(12, part, gas, side),
            Refusal::Dilution { part } => row(13, part, 0, 0),
            Refusal::Humidity { part } => row(14, part, 0, 0),
            Refusal::PairCounts => row(15, 0, 0, 0),
            Refusal::ReferenceMass => row(16, 0, 0, 0),
            Refusal::RotatingOrSpeed => row(17, 0, 0, 0),
            Refusal::LotSize => row(18, 0, 0, 0),
            Refusal::Efficiencies => row(19, 0, 0, 0),
            Refusal::Marked { second } => row(20, second, 0, 0),
            Refusal::LotRecord { index } => row(21, index, 0, 0),
        }
    }
}

impl Refusal {
    // The number that is printed.
    pub fn number(self) -> u32
        ensures { result ≡ number_of self }
    {
        Entry::from(self).number
    }

    // The place that is printed beside it.
    pub fn place(self) -> Place
        ensures { result ≡ place_of self }
    {
        Entry::from(self).place
    }
}

// One check: its refusal where it fails. A stage is such checks, one `?` after the other.
pub fn check(holds: bool, refusal: Refusal) -> Result<(), Refusal>
    ensures { result ≡ checked holds refusal (Ok tt) }
{
    if holds { Ok(()) } else { Err(refusal) }
}
