// What is printed of a case.
use super::sheet;
use arith::Ends;
use cases::Numbers;
use emission::{TestResult, Verdicts};
use part::PartResult;
use print::ends;
use reading::Message;
use refusal::Refusal;
use sides::Gases;
use std::io;
use weigh::Verdict;

fn gas(rt: &impl Print, name: &str, e: Ends) -> io::Result<()> {
    print!(rt; " {name}")?;
    ends(rt, e)
}

// The fifth gas stands last in a line, where the test has it.
fn gases(rt: &impl Print, g: Gases, has_nmhc: bool) -> io::Result<()> {
    gas(rt, "HC", g.hc)?;
    gas(rt, "CO", g.co)?;
    gas(rt, "NOx", g.nox)?;
    gas(rt, "CO2", g.co2)?;
    if has_nmhc {
        gas(rt, "NMHC", g.nmhc)?;
    }
    Ok(())
}

fn part_result(rt: &impl Print, part: u32, p: PartResult, has_nmhc: bool) -> io::Result<()> {
    print!(rt; "\npart {part} volume")?;
    ends(rt, p.volume)?;
    print!(rt; "\n mass")?;
    gases(rt, p.mass, has_nmhc)?;
    print!(rt; "\n rate")?;
    gases(rt, p.rate, has_nmhc)
}

fn verdict(rt: &impl Print, v: Verdict) -> io::Result<()> {
    match v {
        Verdict::Pass => print!(rt; " pass"),
        Verdict::Fail => print!(rt; " fail"),
        Verdict::Undecided => print!(rt; " undecided"),
    }
}

fn verdicts(rt: &impl Print, v: Verdicts) -> io::Result<()> {
    print!(rt; "\nverdicts")?;
    for gas in [v.hc, v.co, v.nox, v.co2, v.nmhc] {
        if let Some(gas) = gas {
            verdict(rt, gas)?;
        }
    }
    Ok(())
}

fn result(rt: &impl Print, r: TestResult) -> io::Result<()> {
    part_result(rt, 1, r.parts.first, r.has_nmhc)?;
    part_result(rt, 2, r.parts.second, r.has_nmhc)?;
    part_result(rt, 3, r.parts.third, r.has_nmhc)?;
    print!(rt; "\nweighted")?;
    gases(rt, r.weighted, r.has_nmhc)?;
    verdicts(rt, r.verdicts)?;
    print!(rt; "\nfuel")?;
    ends(rt, r.fuel)?;
    println!(rt)
}

fn refused(rt: &impl Print, refusal: Refusal) -> io::Result<()> {
    let number = refusal.number();
    let place = refusal.place();
    println!(rt;
        " refusal {number} at {} {} {}",
        place.at, place.within, place.side
    )
}

// The result where the sheet is taken, or only that it is.
fn answer(rt: &impl Print, n: &Numbers, whole: bool) -> io::Result<()> {
    match emission::test(sheet::sheet_in(n)) {
        Ok(r) if whole => result(rt, r),
        Ok(_) => println!(rt; " taken"),
        Err(refusal) => refused(rt, refusal),
    }
}

fn units(rt: &impl Print, message: Message) -> io::Result<()> {
    match reading::convert(message) {
        Some(e) => {
            ends(rt, e)?;
            println!(rt)
        }
        None => println!(rt; " unusable"),
    }
}

// Place 3 says what is asked.
pub fn show(rt: &impl Print, n: &Numbers) -> io::Result<()> {
    let asked = n.digits_at(0, 3);
    if asked == 2 {
        units(rt, sheet::message_at(n, 1, 2, 1))
    } else {
        answer(rt, n, asked == 1)
    }
}
