// The arithmetic layer's worked examples and the table of refusals, as the compiled code gives them.
#![tactic(auto)]

ghost use Rattle.std.specs.Prelude.{pos, ◌<ℤ◌};

use arith::Ends;
use refusal::Refusal;
use std::io;

// One of each number: the gear sheet's, the emission sheet's, the dynamometer's and the lot's.
const REFUSALS: [Refusal; 21] = [
    Refusal::Header,
    Refusal::Count,
    Refusal::Length,
    Refusal::Second { second: 589 },
    Refusal::Vehicle { field: 6 },
    Refusal::Ratio { gear: 2 },
    Refusal::PowerToMass,
    Refusal::Marked { second: 38 },
    Refusal::Room,
    Refusal::TooClose { second: 2000 },
    Refusal::Parts,
    Refusal::Value { part: 0, field: 12 },
    Refusal::Reading {
        part: 3,
        gas: 4,
        side: 2,
    },
    Refusal::Dilution { part: 1 },
    Refusal::Humidity { part: 2 },
    Refusal::PairCounts,
    Refusal::Efficiencies,
    Refusal::ReferenceMass,
    Refusal::RotatingOrSpeed,
    Refusal::LotSize,
    Refusal::LotRecord { index: 255 },
];

fn quotients(rt: &impl Print, n: i64, d: i64) -> io::Result<()>
    requires { pos 0 <ℤ d }
{
    let down = arith::div_down(n, d);
    let up = arith::div_up(n, d);
    println!(rt; "quotient of {n} {d}: {down} {up}")
}

fn divisions(rt: &impl Print) -> io::Result<()> {
    quotients(rt, 7, 2)?;
    quotients(rt, -7, 2)?;
    quotients(rt, -6, 3)?;
    quotients(rt, 0, 3)?;
    quotients(rt, -1, 1000)?;
    quotients(rt, -9223372036854775808, 1000000007)?;
    quotients(rt, 9223372036854775807, 1000000007)?;
    quotients(rt, -9223372036854775808, 1)
}

fn stage(rt: &impl Print, name: &str, e: Ends) -> io::Result<()> {
    print!(rt; "{name}:")?;
    print::ends(rt, e)?;
    println!(rt)
}

fn stages(rt: &impl Print) -> io::Result<()> {
    let a = Ends {
        lower: -3,
        upper: 5,
    };
    let b = Ends {
        lower: -7,
        upper: 4,
    };
    stage(rt, "sum", arith::sum(a, b))?;
    stage(rt, "difference", arith::difference(a, b))?;
    stage(rt, "product", arith::product(a, b))?;
    stage(rt, "times -2", arith::scaled(-2, a))?;
    stage(rt, "divided by 2", arith::divided(b, 2))
}

fn rows(rt: &impl Print) -> io::Result<()> {
    for refusal in &REFUSALS {
        let number = refusal.number();
        let place = refusal.place();
        println!(rt;
            "refusal {number} at {} {} {}",
            place.at, place.within, place.side
        )?;
    }
    Ok(())
}

fn main(rt: HostRuntime) -> io::Result<()> {
    divisions(&rt)?;
    stages(&rt)?;
    rows(&rt)
}
