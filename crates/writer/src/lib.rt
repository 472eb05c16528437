// The writer of a trace of version 2 (02, M-109). The seconds are lent in one list, each its speed in 0.1 km/h and then its phase.
#![tactic(auto)]

ghost use Rattle.std.specs.Prelude.{◌≡◌, ◌++◌, ◌+◌, ◌*◌, ◌≤◌, length, drop};
ghost use Rattle.house.specs.Written.{file_of};
ghost use Rattle.writer.specs.Writer.{speed_in, phase_in, judge_seconds, Filling, with_seconds, write_answer, write_buffer};

use refusal::Refusal;

// Refusal 4: the first of the n seconds that cannot be written.
fn judge_seconds(seconds: &[u16], n: usize) -> Result<(), Refusal>
    requires { (2 * n ≤ length seconds.now) × (n ≤ 2000) }
    ensures { result ≡ judge_seconds seconds.now 0 n }
{
    for k in 0..n {
        if !((seconds[2 * k] <= 2000) & (seconds[2 * k + 1] <= 3)) {
            let second = (k + 1) as u32;
            return Err(Refusal::Second { second });
        }
    }
    Ok(())
}

// The n seconds behind the head.
#[tactic(auto, unfolding(house::specs::Written::seconds_to))]
fn put_seconds(seconds: &[u16], buffer: &mut [u8], n: usize)
    requires { Filling seconds.now (length buffer.old) n }
    ensures { buffer.new ≡ with_seconds seconds.now n buffer.old }
{
    for k in 0..n {
        let phase = seconds[2 * k + 1] as u8;
        house::put_second(buffer, k, seconds[2 * k], phase);
    }
}

// The file at the front of the buffer.
fn fill(seconds: &[u16], buffer: &mut [u8], n: usize)
    requires { Filling seconds.now (length buffer.old) n }
    ensures { buffer.new ≡ file_of 2 (speed_in seconds.now) (phase_in seconds.now) n ++ drop (8 + 4 * n) buffer.old }
{
    house::put_head(buffer, 2, n);
    put_seconds(seconds, buffer, n);
}

// Refusals 2, 4 and 8, in this order, and the buffer as it was; or the trace at its front.
#[tactic(auto, unfolding(crate::specs::Writer::write_answer, crate::specs::Writer::write_buffer))]
pub fn write_trace(seconds: &[u16], buffer: &mut [u8]) -> Result<(), Refusal>
    ensures { (result ≡ write_answer seconds.now (length buffer.old))
        × (buffer.new ≡ write_buffer seconds.now buffer.old) }
{
    let n = seconds.len() / 2;
    if !((seconds.len() % 2 == 0) & ((1 <= n) & (n <= 2000))) {
        return Err(Refusal::Count);
    }
    judge_seconds(seconds, n)?;
    if buffer.len() < 8 + 4 * n {
        return Err(Refusal::Room);
    }
    fill(seconds, buffer, n);
    Ok(())
}
