// A bag sheet from the numbers of a case: place 100 x part + field, where the test's own fields are those of part 0.
use bag::{BagSheet, Densities, Efficiencies, Fuel, Limits, Part, Triple};
use cases::{Number, Numbers, word};
use reading::{Bag, Message};
use std::num::nearest_u32_to_f32;

// Numbers below 2^24 are floats exactly, and their quotient then is the nearest float.
fn float_of(x: Number) -> f32 {
    let quotient = nearest_u32_to_f32(word(x.digits)) / nearest_u32_to_f32(word(x.over));
    if x.is_negative { -quotient } else { quotient }
}

// The unit of a number says which message it is.
fn message_of(x: Number) -> Message {
    match x.unit {
        Some(b'p') => Message::Ppm(float_of(x)),
        Some(b'%') => Message::Percent(float_of(x)),
        Some(b'o') => Message::OverRange,
        _ => Message::NotFitted,
    }
}

pub fn message_at(n: &Numbers, part: u32, side: u32, gas: u32) -> Message {
    message_of(n.at(part, 10 * (side % 10) + gas % 10))
}

fn bag_at(n: &Numbers, part: u32, side: u32) -> Bag {
    Bag {
        hc: message_at(n, part, side, 1),
        co: message_at(n, part, side, 2),
        nox: message_at(n, part, side, 3),
        co2: message_at(n, part, side, 4),
        cutter: message_at(n, part, side, 5),
    }
}

fn degrees(x: Number) -> i32 {
    let degrees = (x.digits % 2147483648) as i32;
    if x.is_negative { -degrees } else { degrees }
}

fn densities_at(n: &Numbers, part: u32) -> Densities {
    Densities {
        hc: n.word_at(part, 11),
        co: n.word_at(part, 12),
        nox: n.word_at(part, 13),
        co2: n.word_at(part, 14),
        nmhc: n.word_at(part, 15),
    }
}

fn part_at(n: &Numbers, part: u32) -> Part {
    Part {
        pump: n.word_at(part, 1),
        revolutions: n.word_at(part, 2),
        barometer: n.word_at(part, 3),
        depression: n.word_at(part, 4),
        temperature: degrees(n.at(part, 5)),
        humidity: n.word_at(part, 6),
        saturation: n.word_at(part, 7),
        distance: n.word_at(part, 8),
        density: densities_at(n, part),
        bag: bag_at(n, part, 2),
        air: bag_at(n, part, 3),
    }
}

fn triple_in(n: &Numbers) -> Triple {
    Triple {
        d: n.word_at(0, 11),
        wc: n.word_at(0, 12),
        wh: n.word_at(0, 13),
    }
}

fn fuel_in(n: &Numbers) -> Fuel {
    Fuel {
        k: n.word_at(0, 21),
        hc: n.word_at(0, 22),
        co: n.word_at(0, 23),
        co2: n.word_at(0, 24),
        density: n.word_at(0, 25),
    }
}

fn limits_in(n: &Numbers) -> Limits {
    Limits {
        hc: n.digits_at(0, 31),
        co: n.digits_at(0, 32),
        nox: n.digits_at(0, 33),
        co2: n.digits_at(0, 34),
        nmhc: n.digits_at(0, 35),
    }
}

fn efficiencies_in(n: &Numbers) -> Efficiencies {
    Efficiencies {
        methane: n.word_at(0, 41),
        ethane: n.word_at(0, 42),
    }
}

pub fn sheet_in(n: &Numbers) -> BagSheet {
    BagSheet {
        class: n.word_at(0, 1),
        parts: n.word_at(0, 2),
        triple: triple_in(n),
        fuel: fuel_in(n),
        limits: limits_in(n),
        efficiencies: efficiencies_in(n),
        first: part_at(n, 1),
        second: part_at(n, 2),
        third: part_at(n, 3),
    }
}
