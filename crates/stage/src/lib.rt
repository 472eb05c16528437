// The stages of a part of a test (01, Bag sheet and figures): from its numbers and its bags' ends to its rates. Each is a definition of specs/ and a
// function that gives it, from ends to ends.
#![tactic(auto)]

ghost use Rattle.std.specs.Prelude.{◌≡◌, ◌<◌, ◌≤◌, ◌^◌, pos};
ghost use Rattle.bag.specs.Fields.{d_range};
ghost use Rattle.stage.specs.Part.{gtr, kelvin_of, volume_of, g_of, q_of, dilution_good, concentration_of, gas_volume_of, mass_of};
ghost use Rattle.stage.specs.Part.{vapour_of, dry_of, humidity_good, kh_of, nox_mass_of, rate_of};
ghost use Rattle.stage.specs.Combination.{combination_of};
ghost use Rattle.stage.specs.Ranges.{CombinationRanges, VolumeRanges, GRanges, ConcentrationRanges, GasVolumeRanges, MassRanges};
ghost use Rattle.stage.specs.Ranges.{HumidityRanges, KhRanges, NoxMassRanges, RateRanges};

use arith::{Ends, divided, exactly, product, scaled};

// A product of the sheet's numbers, as a signed one.
pub fn signed(n: u64) -> i64
    requires { n < 2 ^ 63 }
    ensures { result ≡ pos n }
{
    n as i64
}

// Three numbers, each with its own factor.
#[tactic(auto, unfolding(crate::specs::Combination::combination_of))]
pub fn combination(j: u32, a: Ends, k: u32, b: Ends, l: u32, c: Ends) -> Ends
    requires { CombinationRanges j a k b l c }
    ensures { result ≡ combination_of j a k b l c }
{
    arith::sum(
        arith::sum(scaled(i64::from(j), a), scaled(i64::from(k), b)),
        scaled(i64::from(l), c),
    )
}

// The inlet temperature above absolute zero, in 0.05 K: doubled, so that 273.15 is whole.
fn kelvin(temperature: i32) -> i64
    ensures { result ≡ kelvin_of gtr temperature }
{
    2 * (temperature as i64) + 5463
}

// The diluted gas of a part, in ml.
#[tactic(auto, unfolding(crate::specs::Part::volume_of))]
pub fn volume(
    pump: u32,
    revolutions: u32,
    barometer: u32,
    depression: u32,
    temperature: i32,
) -> Ends
    requires { VolumeRanges pump revolutions barometer depression temperature }
    ensures { result ≡ volume_of gtr pump revolutions barometer depression temperature }
{
    let swept = pump as u64 * revolutions as u64 * (barometer - depression) as u64;
    divided(exactly(signed(swept * 5863)), 101325 * kelvin(temperature))
}

// The weighted sum of the carbon gases in the bag.
#[tactic(auto, unfolding(crate::specs::Part::g_of))]
pub fn g_of(co2: Ends, co: Ends, hc: Ends, wc: u32, wh: u32) -> Ends
    requires { GRanges co2 co hc wc wh }
    ensures { result ≡ g_of co2 co hc wc wh }
{
    combination(10, co2, wc, co, wh, hc)
}

pub fn q_of(d: u32) -> u32
    requires { d ≤ d_range.most }
    ensures { result ≡ q_of d }
{
    2560000 * d
}

// Whether G is below Q, which the concentration needs.
pub fn dilution_good(g: Ends, q: u32) -> bool
    ensures { result ≡ dilution_good g q }
{
    g.upper < i64::from(q)
}

// What the bag has beyond the dilution air, in 1/4,096 ppm: negative where the air has more.
#[tactic(auto, unfolding(crate::specs::Part::concentration_of))]
pub fn concentration(bag: Ends, air: Ends, g: Ends, q: u32) -> Ends
    requires { ConcentrationRanges bag air g q }
    ensures { result ≡ concentration_of bag air g q }
{
    let q = i64::from(q);
    let from_air = product(air, arith::difference(exactly(q), g));
    divided(scaled(16, arith::difference(scaled(q, bag), from_air)), q)
}

// In microlitres.
#[tactic(auto, unfolding(crate::specs::Part::gas_volume_of))]
pub fn gas_volume(volume: Ends, concentration: Ends) -> Ends
    requires { GasVolumeRanges volume concentration }
    ensures { result ≡ gas_volume_of volume concentration }
{
    divided(product(volume, concentration), 4096000)
}

// In micrograms.
#[tactic(auto, unfolding(crate::specs::Part::mass_of))]
pub fn mass(gas: Ends, density: u32) -> Ends
    requires { MassRanges gas density }
    ensures { result ≡ mass_of gas density }
{
    divided(scaled(i64::from(density), gas), 1000000)
}

// The pressure of the vapour in the air, in mPa: g of 01.
fn vapour(humidity: u32, saturation: u32) -> u64
    ensures { result ≡ vapour_of humidity saturation }
{
    humidity as u64 * saturation as u64
}

// The pressure of the air without its vapour, in mPa: B of 01.
fn dry(humidity: u32, saturation: u32, barometer: u32) -> u64
    requires { HumidityRanges humidity saturation barometer }
    ensures { result ≡ dry_of humidity saturation barometer }
{
    1000 * (barometer as u64) - vapour(humidity, saturation)
}

// Whether H is at most 30, which keeps Kh's divisor above zero.
#[tactic(auto, unfolding(crate::specs::Part::humidity_good))]
pub fn humidity_good(humidity: u32, saturation: u32, barometer: u32) -> bool
    requires { HumidityRanges humidity saturation barometer }
    ensures { result ≡ humidity_good humidity saturation barometer }
{
    let g = vapour(humidity, saturation);
    let b = dry(humidity, saturation, barometer);
    6211 * g <= 300 * b
}

// The humidity's correction, in 1/65,536.
#[tactic(auto, using(crate::proofs::Steps::divisor_is_whole), unfolding(crate::specs::Part::kh_of))]
pub fn kh(humidity: u32, saturation: u32, barometer: u32) -> Ends
    requires { KhRanges humidity saturation barometer }
    ensures { result ≡ kh_of humidity saturation barometer }
{
    let g = vapour(humidity, saturation);
    let b = dry(humidity, saturation, barometer);
    let divisor = signed(1352030 * b - 20434190 * g);
    divided(exactly(signed(65536000000 * b)), divisor)
}

// In micrograms, corrected for humidity.
#[tactic(auto, unfolding(crate::specs::Part::nox_mass_of))]
pub fn nox_mass(mass: Ends, kh: Ends) -> Ends
    requires { NoxMassRanges mass kh }
    ensures { result ≡ nox_mass_of mass kh }
{
    divided(product(mass, kh), 65536)
}

// In micrograms/km.
#[tactic(auto, unfolding(crate::specs::Part::rate_of))]
pub fn rate(mass: Ends, distance: u32) -> Ends
    requires { RateRanges mass distance }
    ensures { result ≡ rate_of mass distance }
{
    divided(scaled(1000, mass), i64::from(distance))
}
