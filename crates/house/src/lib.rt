// The house file (01, Trace), byte by byte, and what its flags say. No other crate knows where a byte stands. Seconds count from 0 here.
#![tactic(auto)]

ghost use Rattle.std.specs.Prelude.{◌≡◌, cond, ◌++◌, ◌+◌, ◌<◌, ◌≤◌, eqb, length, drop};
ghost use Rattle.house.specs.House.{sixteen_at, version_of, readable, allows, headed_by, headed, count_of, Lasts};
ghost use Rattle.house.specs.House.{speed_at, flags_at, stop, stop_at, acceleration, deceleration, no_shift, no_first, marked, marked_in, marked_at, good_by, good_in, second_good};
ghost use Rattle.house.specs.House.{phase_of, draft_headed, missing, draft_allows, draft_good, with_phase};
ghost use Rattle.house.specs.Written.{head_of, with_second};

// 16 bits, little-endian.
fn sixteen(bytes: &[u8], at: usize) -> usize
    requires { at + 1 < length bytes.now }
    ensures { (result ≡ sixteen_at bytes.now at) × (result < 65536) }
{
    usize::from(u16::from_le_bytes([bytes[at], bytes[at + 1]]))
}

// The count of seconds, of a trace that has a head.
pub fn count_of(trace: &[u8]) -> usize
    requires { 8 ≤ length trace.now }
    ensures { (result ≡ count_of trace.now) × (result < 65536) }
{
    sixteen(trace, 6)
}

// A lent house file, and the count of seconds that its bytes last for.
#[derive(Clone, Copy)]
pub struct HouseFile<'a> {
    pub bytes: &'a [u8],
    pub seconds: usize,
    ghost lasts: { Lasts bytes.now seconds },
}

impl<'a> HouseFile<'a> {
    // The speed of second k, in 0.1 km/h.
    pub fn speed(self, k: usize) -> usize
        requires { k < self.seconds }
        ensures { (result ≡ speed_at self.entry.bytes.now k) × (result < 65536) }
    {
        sixteen(self.bytes, 4 * k + 8)
    }

    // The flags of second k, and what they say.
    pub fn flags(self, k: usize) -> u8
        requires { k < self.seconds }
        ensures { result ≡ flags_at self.entry.bytes.now k }
    {
        self.bytes[4 * k + 10]
    }

    pub fn is_stop(self, k: usize) -> bool
        requires { k < self.seconds }
        ensures { result ≡ stop_at self.entry.bytes.now k }
    {
        is_stop(self.flags(k))
    }

    // Whether second k has a mark for which refusal 20 is given.
    pub fn is_marked(self, k: usize) -> bool
        requires { k < self.seconds }
        ensures { result ≡ marked_at self.entry.bytes.now k }
    {
        marked_in(version_of(self.bytes), self.flags(k))
    }

    // What refusal 4 asks of second k.
    pub fn is_good(self, k: usize) -> bool
        requires { k < self.seconds }
        ensures { result ≡ second_good self.entry.bytes.now k }
    {
        good_in(
            version_of(self.bytes),
            self.speed(k),
            self.flags(k),
            self.bytes[4 * k + 11],
        )
    }

    // The same of second k of a draft.
    pub fn is_draft_good(self, k: usize) -> bool
        requires { k < self.seconds }
        ensures { result ≡ draft_good self.entry.bytes.now k }
    {
        let allowed = draft_allows(self.flags(k));
        good_by(allowed, self.speed(k), self.bytes[4 * k + 11])
    }
}

// The phase stays a number: it is compared and put back as the two bits that it is, and an enum would be made of it and taken apart again between the two.
pub fn phase_of(flags: u8) -> u8
    ensures { (result ≡ phase_of flags) × (result < 4) }
{
    flags % 4
}

pub fn is_stop(flags: u8) -> bool
    ensures { result ≡ stop flags }
{
    flags % 4 == 0
}

pub fn is_acceleration(flags: u8) -> bool
    ensures { result ≡ acceleration flags }
{
    flags % 4 == 1
}

pub fn is_deceleration(flags: u8) -> bool
    ensures { result ≡ deceleration flags }
{
    flags % 4 == 3
}

// The marks "no gear-shift" and "no 1. gear".
pub fn no_shift(flags: u8) -> bool
    ensures { result ≡ no_shift flags }
{
    flags / 4 % 2 == 1
}

pub fn no_first(flags: u8) -> bool
    ensures { result ≡ no_first flags }
{
    flags / 8 % 2 == 1
}

fn is_marked(flags: u8) -> bool
    ensures { result ≡ marked flags }
{
    no_shift(flags) | no_first(flags)
}

// Of a trace that has a head.
fn version_of(trace: &[u8]) -> usize
    requires { 8 ≤ length trace.now }
    ensures { result ≡ version_of trace.now }
{
    sixteen(trace, 4)
}

pub fn is_readable(version: usize) -> bool
    ensures { result ≡ readable version }
{
    (version == 1) | (version == 2)
}

// The greatest flags of a version that is read.
fn most_flags(version: usize) -> u8
    ensures { result ≡ cond (eqb version 1) 15 3 }
{
    if version == 1 { 15 } else { 3 }
}

// One comparison a second: what the version decides is the same for all seconds of a trace.
fn is_allowed(version: usize, flags: u8) -> bool
    ensures { result ≡ allows version flags }
{
    is_readable(version) & (flags <= most_flags(version))
}

// Of a file with room for a head: the mark and the zero byte, and whether its version is known.
fn is_headed(file: &[u8], known: bool) -> bool
    requires { 8 ≤ length file.now }
    ensures { result ≡ headed_by known file.now }
{
    file.starts_with(b"WTR\0") & known
}

// That there is room for a head stays a clause: what stands in it is defined over the whole file.
pub fn has_head(trace: &[u8]) -> bool
    requires { 8 ≤ length trace.now }
    ensures { result ≡ headed trace.now }
{
    let known = is_readable(version_of(trace));
    is_headed(trace, known)
}

pub fn has_draft_head(draft: &[u8]) -> bool
    requires { 8 ≤ length draft.now }
    ensures { result ≡ draft_headed draft.now }
{
    let known = version_of(draft) == 3;
    is_headed(draft, known)
}

// What refusal 20 is given for: a mark in version 1, which in version 2 would be refusal 4.
pub fn marked_in(version: usize, flags: u8) -> bool
    ensures { result ≡ marked_in version flags }
{
    let marked = is_marked(flags);
    (version == 1) & marked
}

// What refusal 4 asks of a second whose flags are allowed or not.
fn good_by(allowed: bool, speed: usize, fourth: u8) -> bool
    ensures { result ≡ good_by allowed speed fourth }
{
    (speed <= 2000) & allowed & (fourth == 0)
}

// The same by the version of the trace that it is of.
pub fn good_in(version: usize, speed: usize, flags: u8, fourth: u8) -> bool
    ensures { result ≡ good_in version speed flags fourth }
{
    good_by(is_allowed(version, flags), speed, fourth)
}

// Whether the phase is missing, in a draft.
pub fn is_missing(flags: u8) -> bool
    ensures { result ≡ missing flags }
{
    flags / 16 % 2 == 1
}

fn draft_allows(flags: u8) -> bool
    ensures { result ≡ draft_allows flags }
{
    (flags <= 15) | ((flags <= 31) & (flags % 4 == 0))
}

// The flags of a second that takes a phase, which is missing there.
pub fn with_phase(flags: u8, phase: u8) -> u8
    requires { phase < 4 }
    ensures { result ≡ with_phase flags phase }
{
    flags % 16 + phase
}

// The head of a file with n seconds.
pub fn put_head(file: &mut [u8], version: u16, n: usize)
    requires { (8 ≤ length file.old) × (n < 65536) }
    ensures { file.new ≡ head_of version n ++ drop 8 file.old }
{
    file[..4].copy_from_slice(b"WTR\0");
    file[4..6].copy_from_slice(&version.to_le_bytes());
    file[6..8].copy_from_slice(&(n as u16).to_le_bytes());
}

// Second k of such a file.
pub fn put_second(file: &mut [u8], k: usize, speed: u16, flags: u8)
    requires { Lasts file.old (k + 1) }
    ensures { file.new ≡ with_second file.old k speed flags }
{
    let at = 4 * k + 8;
    let speed = speed.to_le_bytes();
    file[at] = speed[0];
    file[at + 1] = speed[1];
    file[at + 2] = flags;
    file[at + 3] = 0;
}
