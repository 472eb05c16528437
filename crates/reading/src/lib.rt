// The analyser's message and its worth in units of 1/256 ppm, as two ends, for every float that it can carry.
#![tactic(auto)]

ghost use Rattle.std.specs.Prelude.{◌≡◌, ◌^◌, ◌≤◌, ◌<◌, pos};
ghost use Rattle.std.specs.Float.Ieee.{of_bits, to_bits};
ghost use Rattle.std.specs.Float.{binary32};
ghost use Rattle.reading.specs.Pattern.{binary_of, over, with_rest};
ghost use Rattle.reading.specs.Units.{exact_value, times, outward, up_to_limit, rounded, units_of, is_fitted, cutter_units};

use arith::Ends;

// What the analyser sends for one gas.
#[derive(Clone, Copy)]
pub enum Message {
    Ppm(f32),
    Percent(f32),
    OverRange,
    NotFitted,
}

// The readings of one bag, or of its dilution air, as received. The cutter burns all hydrocarbons but methane: its reading is HC's behind it.
#[derive(Clone, Copy)]
pub struct Bag {
    pub hc: Message,
    pub co: Message,
    pub nox: Message,
    pub co2: Message,
    pub cutter: Message,
}

// The limit is judged on the upper end.
fn up_to_limit(ends: Ends) -> Option<Ends>
    ensures { result ≡ up_to_limit ends }
{
    if ends.upper <= 16777216 {
        Some(ends)
    } else {
        None
    }
}

// The pattern of a float: the inverse of `float_of`. Of the many patterns that are not a number it gives the one that `to_bits` names.
#[tactic(auto, using(crate::proofs::Numbers::is_number, crate::proofs::Numbers::pattern_of_nan))]
fn bits_of(x: f32) -> u32
    ensures { result ≡ to_bits binary32 x }
{
    if x != x { 0x7fc0_0000 } else { f32::to_bits(x) }
}

// A float as IEEE 754 writes it: significand · 2^(exponent − 150), below zero where negative. The exponent 255 is left to what is infinite or not
// a number.
#[derive(Clone, Copy)]
struct Binary {
    negative: bool,
    exponent: u64,
    significand: u64,
}

// The pattern of minus zero is the least with a minus, and minus zero is not below zero. A denormal has the exponent's field 0: it lacks the leading
// digit that the others have, and its exponent is 1.
#[tactic(auto, unfolding(crate::specs::Pattern::binary_of))]
fn binary_of(bits: u32) -> Binary
    ensures { result ≡ binary_of bits }
{
    let negative: bool = bits > 0x8000_0000;
    let field: u64 = (bits % 0x8000_0000 / 0x80_0000) as u64;
    let trailing: u64 = (bits % 0x80_0000) as u64;
    if field == 0 {
        Binary {
            negative,
            exponent: 1,
            significand: trailing,
        }
    } else {
        Binary {
            negative,
            exponent: field,
            significand: trailing + 0x80_0000,
        }
    }
}

// The ends of a number with this whole part and, where it is not 0, a rest.
#[tactic(auto, unfolding(arith::specs::Stages::exactly, crate::specs::Pattern::with_rest))]
fn with_rest(whole: u64, rest: u64) -> Ends
    requires { whole < 2 ^ 52 }
    ensures { result ≡ with_rest whole rest }
{
    if rest == 0 {
        arith::exactly(whole as i64)
    } else {
        Ends {
            lower: whole as i64,
            upper: (whole + 1) as i64,
        }
    }
}

// product / 2^places, rounded down and up. A shift by the word's width or more has no meaning, and there all is rest.
#[tactic(auto, using(crate::proofs::Scaling::all_rest, crate::proofs::Scaling::shifted))]
fn outward(product: u64, places: u64) -> Ends
    requires { product < 2 ^ 52 }
    ensures { result ≡ outward (over product places) }
{
    if places >= 64 {
        return with_rest(0, product);
    }
    let one: u64 = 1 << places;
    with_rest(product / one, product % one)
}

// A float's ends in units, `each` of them to one ppm or percent, in whole numbers from its bits. From the exponent 144 on, which is 131,072, a float is
// over the limit in either measure, infinite or not a number.
#[tactic(auto, using(crate::proofs::Pattern::below_zero_is, crate::proofs::Pattern::too_large_is, crate::proofs::Pattern::in_range_is, crate::proofs::Pattern::product_below))]
fn in_units(x: f32, each: u64) -> Option<Ends>
    requires least { 256 ≤ each }
    requires most { each < 2 ^ 28 }
    ensures { result ≡ rounded (times (pos each) (exact_value x)) }
{
    let binary = binary_of(bits_of(x));
    if binary.negative {
        return None;
    }
    if binary.exponent >= 144 {
        return None;
    }
    up_to_limit(outward(each * binary.significand, 150 - binary.exponent))
}

// What a message is worth: its ends in units, where it is usable.
#[tactic(auto, unfolding(crate::specs::Units::units_of))]
pub fn convert(message: Message) -> Option<Ends>
    ensures { result ≡ units_of message }
{
    match message {
        Message::Ppm(x) => in_units(x, 256),
        Message::Percent(x) => in_units(x, 2560000),
        Message::OverRange => None,
        Message::NotFitted => None,
    }
}

pub fn is_fitted(message: Message) -> bool
    ensures { result ≡ is_fitted message }
{
    match message {
        Message::Ppm(_) => true,
        Message::Percent(_) => true,
        Message::OverRange => true,
        Message::NotFitted => false,
    }
}

// A reading behind the cutter may be missing, and is then no fault (02, M-108). No figure is made of the 0 that stands for it.
#[tactic(auto, unfolding(crate::specs::Units::cutter_units))]
pub fn convert_cutter(message: Message) -> Option<Ends>
    ensures { result ≡ cutter_units message }
{
    if is_fitted(message) {
        convert(message)
    } else {
        Some(arith::exactly(0))
    }
}

// The float of a bit pattern, for messages that arrive as words. Each of the patterns that are not a number gives the one float that is
// not a number, where `f32::from_bits` has no answer.
#[tactic(auto, using(crate::proofs::Numbers::number_up_to_infinity, crate::proofs::Numbers::nan_above_infinity))]
pub fn float_of(bits: u32) -> f32
    ensures { result ≡ of_bits binary32 bits }
{
    if bits % 0x8000_0000 > 0x7f80_0000 {
        0.0 / 0.0
    } else {
        f32::from_bits(bits)
    }
}
