// The gaps of a grid of beats in microseconds, and which grids have them.
//
// Document 02, No. 3. Inner calls all: a tempo track is written by them.
#![tactic(auto)]

ghost use Rattle.std.specs.Prelude.{◌≡◌, [], ◌∷◌, ◌+◌, ◌-◌, ◌<◌, length};
ghost use Rattle.numbers.specs.Refusals.{number_of, first_of, out_of_bounds, wrong_grid, gap_too_long};
ghost use Rattle.times.specs.Micros.{microseconds};
ghost use Rattle.midi_gaps.specs.Gaps.{gap_at, tempo_track_numbers_fine, is_grid, gaps_fit};

use numbers::{Refusal, unless};
use times::microseconds;

// the longest tempo that three bytes hold
const MOST_TEMPO: u64 = 16_777_215;

// The microseconds from a frame to a later one: a difference of two rounded times, so that errors never add up.
fn gap_between(from: u32, to: u32, rate: u32) -> u64
    requires { 0 < rate }
    ensures { result ≡ microseconds to rate - microseconds from rate }
{
    microseconds(to, rate).saturating_sub(microseconds(from, rate))
}

// Inner: the microseconds from beat i to the next.
pub fn gap_at(beats: &[u32], rate: u32, i: usize) -> u64
    requires { (0 < rate) × (i + 1 < length beats.now) }
    ensures { result ≡ gap_at rate beats.now i }
{
    gap_between(beats[i], beats[i + 1], rate)
}

fn gaps_fit(beats: &[u32], rate: u32) -> bool
    requires { 0 < rate }
    ensures { result ≡ gaps_fit rate beats.now }
{
    let count = beats.len().saturating_sub(1);
    for i in 0..count {
        if gap_at(beats, rate, i) > MOST_TEMPO {
            return false;
        }
    }
    true
}

fn is_grid(beats: &[u32]) -> bool
    ensures { result ≡ is_grid beats.now }
{
    if beats.len() < 2 {
        return false;
    }
    lists::ascends(beats)
}

// Inner: what refuses a grid, before a file is looked at: 1, 6, 7, in this order.
pub fn grid_refusal(beats: &[u32], rate: u32) -> Result<(), Refusal>
    ensures { number_of result ≡
        first_of
        ((tempo_track_numbers_fine rate beats.now, out_of_bounds)
        ∷ (is_grid beats.now, wrong_grid)
        ∷ (gaps_fit rate beats.now, gap_too_long)
        ∷ []) }
{
    if !numbers::rate_fine(rate) {
        return Err(Refusal::OutOfBounds);
    }
    let frames = lists::all_at_most(beats, numbers::MOST_FRAME);
    let grid = is_grid(beats);
    let gaps = gaps_fit(beats, rate);
    let rest = unless(
        grid,
        Refusal::WrongGrid,
        unless(gaps, Refusal::GapTooLong, Ok(())),
    );
    unless(frames, Refusal::OutOfBounds, rest)
}
