// The readings of a test (01, Bag sheet and figures; 02, M-104 and M-108): its messages become ends, or refusal 12.
#![tactic(auto)]

ghost use Rattle.std.specs.Prelude.{◌≡◌};
ghost use Rattle.sides.specs.Gases.{nothing};
ghost use Rattle.sides.specs.ReadIn.{read_gas, sides_from, read_part, read_third, read_in};

use arith::Ends;
use bag::{BagSheet, Part};
use refusal::{Gas, Refusal, Side};

// The ends of each gas: readings, masses or rates.
#[repr(C)]
#[derive(Clone, Copy)]
pub struct Gases {
    pub hc: Ends,
    pub co: Ends,
    pub nox: Ends,
    pub co2: Ends,
    pub nmhc: Ends,
}

// The readings of a part. As it is read, the fifth gas is the reading behind the cutter.
#[derive(Clone, Copy)]
pub struct Sides {
    pub bag: Gases,
    pub air: Gases,
}

// The ends of a gas, in the bag and in the air.
#[derive(Clone, Copy)]
pub struct GasSides {
    pub bag: Ends,
    pub air: Ends,
}

#[tactic(auto, unfolding(crate::specs::Gases::each, crate::specs::Gases::nothing))]
pub fn no_gases() -> Gases
    ensures { result ≡ nothing }
{
    Gases {
        hc: arith::exactly(0),
        co: arith::exactly(0),
        nox: arith::exactly(0),
        co2: arith::exactly(0),
        nmhc: arith::exactly(0),
    }
}

// The ends of a gas from what its messages are worth, the bag's before the air's, or refusal 12.
#[tactic(auto, unfolding(crate::specs::ReadIn::read_gas))]
fn read_gas(part: u32, gas: Gas, bag: Option<Ends>, air: Option<Ends>) -> Result<GasSides, Refusal>
    ensures { result ≡ read_gas part gas bag air }
{
    let gas = u32::from(gas);
    let bag = bag.ok_or(Refusal::Reading {
        part,
        gas,
        side: u32::from(Side::Bag),
    })?;
    let air = air.ok_or(Refusal::Reading {
        part,
        gas,
        side: u32::from(Side::Air),
    })?;
    Ok(GasSides { bag, air })
}

#[tactic(auto, unfolding(crate::specs::Gases::each, crate::specs::ReadIn::sides_from))]
fn sides_from(hc: GasSides, co: GasSides, nox: GasSides, co2: GasSides, cutter: GasSides) -> Sides
    ensures { result ≡ sides_from hc co nox co2 cutter }
{
    Sides {
        bag: Gases {
            hc: hc.bag,
            co: co.bag,
            nox: nox.bag,
            co2: co2.bag,
            nmhc: cutter.bag,
        },
        air: Gases {
            hc: hc.air,
            co: co.air,
            nox: nox.air,
            co2: co2.air,
            nmhc: cutter.air,
        },
    }
}

// The ends of every gas, in the table's order, or the first refusal. Each message is converted once, and all of them before the first is looked at:
// ends that were just written and are read at once make the processor wait (docs/DECISIONS.md).
#[tactic(auto, unfolding(crate::specs::ReadIn::read_part))]
pub fn read_part(part: u32, p: Part) -> Result<Sides, Refusal>
    ensures { result ≡ read_part part p }
{
    let bag_hc = reading::convert(p.bag.hc);
    let air_hc = reading::convert(p.air.hc);
    let bag_co = reading::convert(p.bag.co);
    let air_co = reading::convert(p.air.co);
    let bag_nox = reading::convert(p.bag.nox);
    let air_nox = reading::convert(p.air.nox);
    let bag_co2 = reading::convert(p.bag.co2);
    let air_co2 = reading::convert(p.air.co2);
    let bag_cutter = reading::convert_cutter(p.bag.cutter);
    let air_cutter = reading::convert_cutter(p.air.cutter);
    let hc = read_gas(part, Gas::HC, bag_hc, air_hc)?;
    let co = read_gas(part, Gas::CO, bag_co, air_co)?;
    let nox = read_gas(part, Gas::NOx, bag_nox, air_nox)?;
    let co2 = read_gas(part, Gas::CO2, bag_co2, air_co2)?;
    let cutter = read_gas(part, Gas::NMHC, bag_cutter, air_cutter)?;
    Ok(sides_from(hc, co, nox, co2, cutter))
}

// The readings of a test: of each part, as ends in units of 1/256 ppm.
#[derive(Clone, Copy)]
pub struct TestSides {
    pub first: Sides,
    pub second: Sides,
    pub third: Sides,
}

// A third part that the class does not have is not read.
#[tactic(auto, unfolding(crate::specs::ReadIn::read_third))]
fn read_third(class: u32, third: Part) -> Result<Sides, Refusal>
    ensures { result ≡ read_third class third }
{
    if class == 3 {
        read_part(3, third)
    } else {
        Ok(Sides {
            bag: no_gases(),
            air: no_gases(),
        })
    }
}

// The readings of a test, or refusal 12.
#[tactic(auto, unfolding(crate::specs::ReadIn::read_in))]
pub fn readings_in(s: BagSheet) -> Result<TestSides, Refusal>
    ensures { result ≡ read_in s }
{
    Ok(TestSides {
        first: read_part(1, s.first)?,
        second: read_part(2, s.second)?,
        third: read_third(s.class, s.third)?,
    })
}
