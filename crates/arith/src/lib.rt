// Ends of numbers: signed division rounded down and up, and what the stages of 01 do with pairs of ends. The gear sheet and the emission sheet
// stand on these contracts alone.
#![tactic(auto)]

ghost use Rattle.std.specs.Prelude.{◌≡◌, pos, ◌<ℤ◌};
ghost use Rattle.arith.specs.Rounding.{div_down, div_up};
ghost use Rattle.arith.specs.Stages.{smaller, larger, exactly, sum_of, difference_of, scaled_by, hull_of, product_of, divided_by};
ghost use Rattle.arith.specs.Fitting.{SumFits, DifferenceFits, ScaledFits, ProductFits};

// n / d rounded down. That a divisor is positive stays a clause, here and below: each caller has it of one number at one call.
#[tactic(auto, unfolding(crate::specs::Rounding::div_down))]
pub fn div_down(n: i64, d: i64) -> i64
    requires positive { pos 0 <ℤ d }
    ensures { result ≡ div_down n d }
{
    if n < 0 { -1 - (-1 - n) / d } else { n / d }
}

// n / d rounded up.
#[tactic(auto, unfolding(crate::specs::Rounding::div_down, crate::specs::Rounding::div_up))]
pub fn div_up(n: i64, d: i64) -> i64
    requires { pos 0 <ℤ d }
    ensures { result ≡ div_up n d }
{
    if 0 < n { (n - 1) / d + 1 } else { n / d }
}

// The library's `min` and `max` in the words of the definition, in which the ends below are proved.
fn smaller(m: i64, n: i64) -> i64
    ensures { result ≡ smaller m n }
{
    m.min(n)
}

fn larger(m: i64, n: i64) -> i64
    ensures { result ≡ larger m n }
{
    m.max(n)
}

// The lower and the upper end of a number.
#[repr(C)]
#[derive(Clone, Copy)]
pub struct Ends {
    pub lower: i64,
    pub upper: i64,
}

#[tactic(auto, unfolding(crate::specs::Stages::exactly))]
pub fn exactly(n: i64) -> Ends
    ensures { result ≡ exactly n }
{
    Ends { lower: n, upper: n }
}

#[tactic(auto, unfolding(crate::specs::Stages::sum_of))]
pub fn sum(a: Ends, b: Ends) -> Ends
    requires { SumFits a b }
    ensures { result ≡ sum_of a b }
{
    Ends {
        lower: a.lower + b.lower,
        upper: a.upper + b.upper,
    }
}

#[tactic(auto, unfolding(crate::specs::Stages::difference_of))]
pub fn difference(a: Ends, b: Ends) -> Ends
    requires { DifferenceFits a b }
    ensures { result ≡ difference_of a b }
{
    Ends {
        lower: a.lower - b.upper,
        upper: a.upper - b.lower,
    }
}

#[tactic(auto, unfolding(crate::specs::Stages::scaled_by))]
pub fn scaled(k: i64, a: Ends) -> Ends
    requires { ScaledFits k a }
    ensures { result ≡ scaled_by k a }
{
    let p = k * a.lower;
    let q = k * a.upper;
    Ends {
        lower: smaller(p, q),
        upper: larger(p, q),
    }
}

#[tactic(auto, unfolding(crate::specs::Stages::hull_of))]
fn hull(a: Ends, b: Ends) -> Ends
    ensures { result ≡ hull_of a b }
{
    Ends {
        lower: smaller(a.lower, b.lower),
        upper: larger(a.upper, b.upper),
    }
}

#[tactic(auto, unfolding(crate::specs::Stages::product_of))]
pub fn product(a: Ends, b: Ends) -> Ends
    requires { ProductFits a b }
    ensures { result ≡ product_of a b }
{
    hull(scaled(a.lower, b), scaled(a.upper, b))
}

#[tactic(auto, unfolding(crate::specs::Stages::divided_by))]
pub fn divided(a: Ends, d: i64) -> Ends
    requires { pos 0 <ℤ d }
    ensures { result ≡ divided_by a d }
{
    Ends {
        lower: div_down(a.lower, d),
        upper: div_up(a.upper, d),
    }
}
