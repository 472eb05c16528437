// Hydrocarbons without methane (02, M-108; 003, paragraph 4.3.1), from the reading of all hydrocarbons and the reading behind the cutter, which burns all but methane.
#![tactic(auto)]

ghost use Rattle.std.specs.Prelude.{◌≡◌};
ghost use Rattle.bag.specs.Sound.{RangedEfficiencies};
ghost use Rattle.cutter.specs.NonMethane.{fitted_in, cutter_of, efficient, cutter_good, non_methane_of, nmhc_of};
ghost use Rattle.cutter.specs.Ranges.{NonMethaneRanges, NmhcRanges};

use arith::{Ends, scaled};
use bag::{BagSheet, Efficiencies, Part};

// The cutter of a test: whether it was fitted throughout, so that the test has the fifth gas; and what it takes away.
#[derive(Clone, Copy)]
pub struct Cutter {
    pub fitted: bool,
    pub efficiencies: Efficiencies,
}

fn fitted_in(p: Part) -> bool
    ensures { result ≡ fitted_in p }
{
    reading::is_fitted(p.bag.cutter) & reading::is_fitted(p.air.cutter)
}

// Parts past the class's number are not read.
#[tactic(auto, unfolding(crate::specs::NonMethane::cutter_of))]
pub fn cutter_of(s: BagSheet) -> Cutter
    ensures { result ≡ cutter_of s }
{
    let both = fitted_in(s.first) & fitted_in(s.second);
    Cutter {
        fitted: both & ((s.class != 3) | fitted_in(s.third)),
        efficiencies: s.efficiencies,
    }
}

fn is_efficient(e: Efficiencies) -> bool
    requires { RangedEfficiencies e }
    ensures { result ≡ efficient e }
{
    e.methane + 500 <= e.ethane
}

// Refusal 19 where it does not hold.
pub fn is_good(c: Cutter) -> bool
    requires { RangedEfficiencies c.efficiencies }
    ensures { result ≡ cutter_good c }
{
    !c.fitted | is_efficient(c.efficiencies)
}

// In 1/256 ppm, like the two readings, and negative where the cutter's is too large for the other.
#[tactic(auto, unfolding(crate::specs::NonMethane::non_methane_of))]
fn non_methane(e: Efficiencies, hc: Ends, behind: Ends) -> Ends
    requires { NonMethaneRanges e hc behind }
    ensures { result ≡ non_methane_of e hc behind }
{
    let without = scaled(i64::from(1000 - e.methane), hc);
    arith::divided(
        arith::difference(without, scaled(1000, behind)),
        i64::from(e.ethane - e.methane),
    )
}

// The fifth gas of a bag or of the air: nothing where the test has none.
#[tactic(auto, unfolding(crate::specs::NonMethane::nmhc_of))]
pub fn nmhc(c: Cutter, hc: Ends, behind: Ends) -> Ends
    requires { NmhcRanges c hc behind }
    ensures { result ≡ nmhc_of c hc behind }
{
    if c.fitted {
        non_methane(c.efficiencies, hc, behind)
    } else {
        arith::exactly(0)
    }
}
