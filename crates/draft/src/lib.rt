// The tool for drafts of traces (02, M-112): mends what can be mended of a second's missing phase, and turns a draft with nothing open into a trace. Seconds count from 0 in
// this file, and from 1 in the lists and where a refusal names one.
#![tactic(auto)]

ghost use Rattle.std.specs.Prelude.{◌≡◌, true, cond, ◌++◌, ◌+◌, ◌*◌, ◌≤◌, ◌<◌, length, set, drop, MatchResult};
ghost use Rattle.house.specs.House.{count_of, speed_at};
ghost use Rattle.house.specs.Written.{file_of};
ghost use Rattle.draft.specs.Draft.{judge_seconds, judge_draft, gap_to, level, bounded, mended_flags};
ghost use Rattle.draft.specs.Draft.{list_of, mend_answer, draft_after, changed_after, left_after, judge_turn, turned_after};
ghost use Rattle.draft.specs.Gap.{Drafted, gap_of, gap_before, listed_by, list_front, with_seconds};

use house::HouseFile;
use refusal::Refusal;

// How many seconds were changed, and how many are left open.
#[derive(Clone, Copy)]
pub struct Mended {
    pub changed: u32,
    pub left: u32,
}

// A draft that was read: its seconds are those of its head.
#[derive(Clone, Copy)]
struct Draft<'a> {
    file: HouseFile<'a>,
    ghost drafted: { Drafted file.bytes.now file.seconds },
}

// Of a second: where the gap ends that it is in, which is the second itself where it is in none, and whether that gap takes a phase. Both are said of every second, so it is no
// Option.
#[derive(Clone, Copy)]
pub struct Gap {
    pub to: usize,
    pub taken: bool,
}

// What stands for the gap of the second before the first.
const NO_GAP: Gap = Gap {
    to: 0,
    taken: false,
};

// The first of its seconds that cannot be read, or is open where that matters.
fn judge_seconds(draft: Draft, turning: bool) -> Result<(), Refusal>
    ensures { result ≡ judge_seconds turning draft.entry.file.bytes.now 0 draft.entry.file.seconds }
{
    for k in 0..draft.file.seconds {
        let open = turning & house::is_missing(draft.file.flags(k));
        if !(draft.file.is_draft_good(k) & !open) {
            let second = (k + 1) as u32;
            return Err(Refusal::Second { second });
        }
    }
    Ok(())
}

// Refusals 1 to 4, read by version 3, or the draft's seconds; of one that is to be turned, 4 for an open second too.
#[tactic(auto, unfolding(crate::specs::Draft::judge_draft))]
fn read<'a>(draft: &'a [u8], turning: bool) -> Result<Draft<'a>, Refusal>
    ensures { MatchResult result
        (λ read. (judge_draft turning draft.now ≡ Ok tt) × (read.file.bytes ≡ draft.entry) × (read.file.seconds ≡ count_of draft.now))
        (λ refusal. judge_draft turning draft.now ≡ Err refusal) }
{
    if draft.len() < 8 {
        return Err(Refusal::Header);
    }
    let file = trace::read_file(draft, house::has_draft_head(draft))?;
    let draft = Draft { file };
    judge_seconds(draft, turning)?;
    Ok(draft)
}

// The first of the n seconds from k on whose phase is known, or n.
fn gap_to(draft: Draft, k: usize) -> usize
    requires { k ≤ draft.file.seconds }
    ensures { (result ≡ gap_to draft.entry.file.bytes.now k) × (k ≤ result) × (result ≤ draft.entry.file.seconds) }
{
    for to in k..draft.file.seconds {
        if !house::is_missing(draft.file.flags(to)) {
            return to;
        }
    }
    draft.file.seconds
}

// Whether the seconds from `from` to before `to` have one speed.
fn is_level(draft: Draft, from: usize, to: usize) -> bool
    requires { (from < to) × (to ≤ draft.file.seconds) }
    ensures { result ≡ level draft.entry.file.bytes.now from to }
{
    let speed = draft.file.speed(from);
    for k in from..to {
        if draft.file.speed(k) != speed {
            return false;
        }
    }
    true
}

// Whether the gap from `from` to before `to` takes the phase of the two seconds beside it. A gap at an end of the draft has one beside it at most.
fn is_bounded(draft: Draft, from: usize, to: usize) -> bool
    requires { (from < to) × (to ≤ draft.file.seconds) }
    ensures { result ≡ bounded draft.entry.file.bytes.now from to }
{
    if from == 0 {
        return false;
    }
    if draft.file.seconds <= to {
        return false;
    }
    let before = house::phase_of(draft.file.flags(from - 1));
    let after = house::phase_of(draft.file.flags(to));
    if before != after {
        return false;
    }
    is_level(draft, from - 1, to + 1)
}

// The gap of second k, from that of the second before: a gap is gone through once.
fn gap_at(draft: Draft, k: usize, last: Gap) -> Gap
    requires { (k < draft.file.seconds) × (last ≡ gap_before draft.file.bytes.now k) }
    ensures { result ≡ gap_of draft.entry.file.bytes.now k }
{
    if k < last.to {
        return last;
    }
    let to = gap_to(draft, k);
    if to == k {
        return Gap { to, taken: false };
    }
    let taken = is_bounded(draft, k, to);
    Gap { to, taken }
}

// Whether second k, whose gap this is, is one of those changed, or of those left open. Which of the two is asked by a flag and not by a closure: the lists are one definition
// over it (`list_of`).
fn is_listed(gap: Gap, k: usize, changed: bool) -> bool
    ensures { result ≡ listed_by gap k changed }
{
    if changed {
        return gap.taken;
    }
    (k < gap.to) & !gap.taken
}

// How many of the n seconds were changed, or are left open.
fn count_seconds(draft: Draft, changed: bool) -> usize
    ensures { (result ≡ length (list_of draft.entry.file.bytes.now changed)) × (result ≤ draft.entry.file.seconds) }
{
    let mut gap = NO_GAP;
    let mut count = 0;
    for k in 0..draft.file.seconds {
        gap = gap_at(draft, k, gap);
        count += usize::from(is_listed(gap, k, changed));
    }
    count
}

// Lists a second behind `at` others, if it is to be listed, and says how many there are then.
fn list_second(list: &mut [u16], at: usize, second: u16, listed: bool) -> usize
    requires { (at ≤ 2000) × (listed ≡ true → at < length list.old) }
    ensures { (result ≡ at + cond listed 1 0) × (list.new ≡ cond listed (set list.old at second) list.old) }
{
    if !listed {
        return at;
    }
    list[at] = second;
    at + 1
}

// Their list, at the front.
fn list_seconds(draft: Draft, changed: bool, list: &mut [u16])
    requires { length (list_of draft.file.bytes.now changed) ≤ length list.old }
    ensures { list.new ≡ list_front draft.entry.file.bytes.now changed list.old }
{
    let mut gap = NO_GAP;
    let mut at = 0;
    for k in 0..draft.file.seconds {
        gap = gap_at(draft, k, gap);
        let listed = is_listed(gap, k, changed);
        at = list_second(list, at, (k + 1) as u16, listed);
    }
}

// The flags of second k, whose gap this is, in the mended draft.
fn mended_flags(draft: Draft, k: usize, gap: Gap) -> u8
    requires { (k < draft.file.seconds) × (gap ≡ gap_of draft.file.bytes.now k) }
    ensures { result ≡ mended_flags draft.entry.file.bytes.now k }
{
    let flags = draft.file.flags(k);
    if !gap.taken {
        return flags;
    }
    house::with_phase(flags, house::phase_of(draft.file.flags(gap.to)))
}

// The n seconds of the mended draft behind the head.
#[tactic(auto, unfolding(house::specs::Written::seconds_to))]
fn put_seconds(draft: Draft, buffer: &mut [u8])
    requires { 8 + 4 * draft.file.seconds ≤ length buffer.old }
    ensures { buffer.new ≡ with_seconds draft.entry.file.bytes.now draft.entry.file.seconds buffer.old }
{
    let mut gap = NO_GAP;
    for k in 0..draft.file.seconds {
        gap = gap_at(draft, k, gap);
        let flags = mended_flags(draft, k, gap);
        house::put_second(buffer, k, draft.file.speed(k) as u16, flags);
    }
}

// The mended draft at the front of the buffer, under a version.
fn fill(draft: Draft, version: u16, buffer: &mut [u8])
    requires { 8 + 4 * draft.file.seconds ≤ length buffer.old }
    ensures { buffer.new ≡ file_of version (speed_at draft.entry.file.bytes.now) (mended_flags draft.entry.file.bytes.now) draft.entry.file.seconds ++ drop (8 + 4 * draft.entry.file.seconds) buffer.old }
{
    house::put_head(buffer, version, draft.file.seconds);
    put_seconds(draft, buffer);
}

// Refusals 1 to 4, read by version 3, and then 8, and all three outputs as they were; or the mended draft, the seconds changed and the seconds left open, each at the front of
// its own.
pub fn mend(
    draft: &[u8],
    buffer: &mut [u8],
    changed: &mut [u16],
    left: &mut [u16],
) -> Result<Mended, Refusal>
    ensures { (result ≡ mend_answer draft.now (length buffer.old) (length changed.old) (length left.old))
        × (buffer.new ≡ draft_after draft.now buffer.old changed.old left.old)
        × (changed.new ≡ changed_after draft.now buffer.old changed.old left.old)
        × (left.new ≡ left_after draft.now buffer.old changed.old left.old) }
{
    let draft = read(draft, false)?;
    let changes = count_seconds(draft, true);
    let opens = count_seconds(draft, false);
    if !((8 + 4 * draft.file.seconds <= buffer.len())
        & ((changes <= changed.len()) & (opens <= left.len())))
    {
        return Err(Refusal::Room);
    }
    fill(draft, 3, buffer);
    list_seconds(draft, true, changed);
    list_seconds(draft, false, left);
    Ok(Mended {
        changed: changes as u32,
        left: opens as u32,
    })
}

// Refusals 1 to 4, read by version 3, 4 for an open second too, and then 8, and the buffer as it was; or the trace of version 1 at its front. Nothing is missing then, and
// so mending alters nothing.
pub fn turn(draft: &[u8], buffer: &mut [u8]) -> Result<(), Refusal>
    ensures { (result ≡ judge_turn draft.now (length buffer.old)) × (buffer.new ≡ turned_after draft.now buffer.old) }
{
    let draft = read(draft, true)?;
    if buffer.len() < 8 + 4 * draft.file.seconds {
        return Err(Refusal::Room);
    }
    fill(draft, 1, buffer);
    Ok(())
}
