// The ends of messages in units, bit pattern by bit pattern, as ppm and as percent, as the compiled code gives them.
#![tactic(auto)]

use reading::Message;
use std::io;

// Zero, minus zero, and the floats next to them; the smallest that is no denormal.
const ZEROS: [u32; 6] = [
    0x0000_0000,
    0x8000_0000,
    0x0000_0001,
    0x8000_0001,
    0x0080_0000,
    0x007f_ffff,
];

// 1/512 and 1/1,024 ppm; halves of a unit with floats beside them: 0.5, 1.5 and 2.5 of ppm, 0.5 and 312.5 of percent.
const HALVES: [u32; 10] = [
    0x3b00_0000,
    0x3a80_0000,
    0x3aff_ffff,
    0x3b00_0001,
    0x3bc0_0000,
    0x3c1f_ffff,
    0x3c20_0000,
    0x3451_b717,
    0x3451_b718,
    0x3900_0000,
];

// 1 and 2 units of ppm, and 1 percent, with the floats beside each.
const WHOLES: [u32; 8] = [
    0x3b7f_ffff,
    0x3b80_0000,
    0x3b80_0001,
    0x3bff_ffff,
    0x3c00_0000,
    0x3c00_0001,
    0x3f7f_ffff,
    0x3f80_0001,
];

// Plain readings: 0.1, 1, 3.5, 6, 400, 14,500 and nearly 32,768.
const WITHIN: [u32; 7] = [
    0x3dcc_cccd,
    0x3f80_0000,
    0x4060_0000,
    0x40c0_0000,
    0x43c8_0000,
    0x4662_9000,
    0x46ff_ffff,
];

// The limit, 6.5536 percent and 65,536 ppm, and the floats around it.
const LIMIT: [u32; 8] = [
    0x40d1_b716,
    0x40d1_b717,
    0x40d1_b718,
    0x477f_ffff,
    0x4780_0000,
    0x4780_0001,
    0x4780_0080,
    0x4780_0081,
];

// Far past the limit, below zero, infinite, not a number.
const UNUSABLE: [u32; 8] = [
    0x7f7f_ffff,
    0xbf80_0000,
    0xff7f_ffff,
    0x7f80_0000,
    0xff80_0000,
    0x7f80_0001,
    0x7fc0_0000,
    0xffc0_1234,
];

fn show(rt: &impl Print, message: Message) -> io::Result<()> {
    match reading::convert(message) {
        Some(ends) => print::ends(rt, ends),
        None => print!(rt; " unusable"),
    }
}

fn rows(rt: &impl Print, patterns: &[u32]) -> io::Result<()> {
    for bits in patterns {
        let x = reading::float_of(*bits);
        print!(rt; "{bits:08x} ppm")?;
        show(rt, Message::Ppm(x))?;
        print!(rt; " percent")?;
        show(rt, Message::Percent(x))?;
        println!(rt)?;
    }
    Ok(())
}

fn without_a_float(rt: &impl Print) -> io::Result<()> {
    print!(rt; "over range")?;
    show(rt, Message::OverRange)?;
    print!(rt; "\nnot fitted")?;
    show(rt, Message::NotFitted)?;
    println!(rt)
}

fn main(rt: HostRuntime) -> io::Result<()> {
    rows(&rt, &ZEROS)?;
    rows(&rt, &HALVES)?;
    rows(&rt, &WHOLES)?;
    rows(&rt, &WITHIN)?;
    rows(&rt, &LIMIT)?;
    rows(&rt, &UNUSABLE)?;
    without_a_float(&rt)
}
