// The frame of a time: which listed frame has it, if any.
//
// Document 02, No. 6. Inner calls all: crate label_tracks judges the rate before it asks.
#![tactic(auto)]

ghost use Rattle.std.specs.Prelude.{◌≡◌, true, ◌≤◌};
ghost use Rattle.numbers.specs.Limits.{most_frame, rate_fine};
ghost use Rattle.times.specs.Micros.{microseconds};
ghost use Rattle.label_times.specs.Frames.{frame_for, time_fine, time_read};

use lists::Reading;

// Inner: the one frame that can have the time u, which is at most that of the last listed frame.
pub fn frame_for(u: u64, rate: u32) -> u64
    requires u_bound { u ≤ microseconds most_frame rate }
    requires rate_value { rate_fine rate ≡ true }
    ensures { result ≡ frame_for u rate }
{
    let x = u * ((rate as u64) * 2);
    let base = 1_024_000_000 + (rate as u64);
    x.saturating_sub(base).div_ceil(512_000_000)
}

// Inner: whether a time is that of a listed frame.
pub fn time_fine(u: u64, rate: u32) -> bool
    requires { rate_fine rate ≡ true }
    ensures { result ≡ time_fine rate u }
{
    if u > times::microseconds(numbers::MOST_FRAME, rate) {
        return false;
    }
    let t = frame_for(u, rate);
    if t > numbers::MOST_FRAME as u64 {
        return false;
    }
    times::microseconds(t as u32, rate) == u
}

// Inner: one time more that is read.
pub fn read_time(j: Reading, u: u64, rate: u32) -> Reading
    requires { rate_fine rate ≡ true }
    ensures { result ≡ time_read rate j u }
{
    if !time_fine(u, rate) {
        return lists::read_none(j);
    }
    lists::read_frame(j, frame_for(u, rate) as u32)
}
