// A trace of the house (01, Trace): judged whole, and chosen from a pair. Seconds count from 0 in this file, and from 1 where a refusal names one.
#![tactic(auto)]

ghost use Rattle.std.specs.Prelude.{◌≡◌, ◌≤◌, length};
ghost use Rattle.trace.specs.Judging.{judge_seconds, judge_file, judge_trace, judge_pair, judge_marks, Taken};
ghost use Rattle.trace.specs.Choice.{Chosen};

use house::HouseFile;
use refusal::Refusal;

// The first wrong one of its seconds. That there are at most 2,000 stays a clause here and in own and gear: a house file is read by house's functions whatever it counts.
fn judge_seconds(trace: HouseFile) -> Result<(), Refusal>
    requires { trace.seconds ≤ 2000 }
    ensures { result ≡ judge_seconds trace.entry.bytes.now 0 trace.entry.seconds }
{
    for k in 0..trace.seconds {
        if !trace.is_good(k) {
            let second = (k + 1) as u32;
            return Err(Refusal::Second { second });
        }
    }
    Ok(())
}

// A file with room for a head, which is one or not: refusals 1 to 3, or the file with the seconds that its head counts.
pub fn read_file<'a>(file: &'a [u8], headed: bool) -> Result<HouseFile<'a>, Refusal>
    requires { 8 ≤ length file.now }
    ensures { Taken file.entry (judge_file headed file.now (Ok tt)) result }
{
    if !headed {
        return Err(Refusal::Header);
    }
    let n = house::count_of(file);
    if !((1 <= n) & (n <= 2000)) {
        return Err(Refusal::Count);
    }
    if file.len() != 8 + 4 * n {
        return Err(Refusal::Length);
    }
    Ok(HouseFile {
        bytes: file,
        seconds: n,
    })
}

// A trace: refusals 1 to 4, or its seconds.
#[tactic(auto, unfolding(crate::specs::Judging::judge_trace))]
pub fn read<'a>(trace: &'a [u8]) -> Result<HouseFile<'a>, Refusal>
    ensures { Taken trace.entry (judge_trace trace.now) result }
{
    if trace.len() < 8 {
        return Err(Refusal::Header);
    }
    let trace = read_file(trace, house::has_head(trace))?;
    judge_seconds(trace)?;
    Ok(trace)
}

// Refusals 1 to 4 of the normal trace, then of the reduced one, then 15.
#[tactic(auto, unfolding(crate::specs::Judging::judge_pair))]
pub fn judge_pair(normal: &[u8], reduced: &[u8]) -> Result<(), Refusal>
    ensures { result ≡ judge_pair normal.now reduced.now }
{
    let normal = read(normal)?;
    let reduced = read(reduced)?;
    refusal::check(normal.seconds == reduced.seconds, Refusal::PairCounts)
}

// Refusal 20, of a trace that is taken.
pub fn judge_marks(trace: HouseFile) -> Result<(), Refusal>
    requires { trace.seconds ≤ 2000 }
    ensures { result ≡ judge_marks trace.entry.bytes.now 0 trace.entry.seconds }
{
    for k in 0..trace.seconds {
        if trace.is_marked(k) {
            let first = (k + 1) as u32;
            return Err(Refusal::Marked { second: first });
        }
    }
    Ok(())
}

// The one of two lent traces that the bench's reduced-speed switch names, or the empty first part of the normal one.
pub fn choose<'a>(normal: &'a [u8], reduced: &'a [u8], switch: bool) -> &'a [u8]
    ensures { Chosen normal.entry reduced.entry switch result }
{
    let Ok(()) = judge_pair(normal, reduced) else {
        return &normal[..0];
    };
    if switch { reduced } else { normal }
}
