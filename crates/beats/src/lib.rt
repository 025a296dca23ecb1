// The beat grid: the chain of frames, about a period apart, that carries the most flux.
//
// Document 01, "Beats and bars". The Rust: tempo.rs `beat_grid`.
#![tactic(auto)]

mod envelopes;
mod grids;
mod scores;

ghost use Rattle.beats.specs.Grids.{grid_refusal, GridPromise};
ghost use Rattle.std.specs.Prelude.{◌≡◌};
ghost use Rattle.numbers.specs.Outcomes.{listing};
ghost use Rattle.numbers.specs.Refusals.{number_of};

use numbers::Refusal;

// Finds the beats of an envelope of onset strength, `period` frames apart more or less, and lists their frames ascending.
// Room: N slots each for score (the best chain's score at each frame), back (the beat before, 4,294,967,295 where there is none) and beats.
// Refuses 1 (N, period above 45,000), 3 and 4, and then writes nothing; without beats score and back are not written either.
pub fn beat_grid(
    envelope: &[f64],
    period: usize,
    score: &mut [f64],
    back: &mut [u32],
    beats: &mut [u32],
) -> Result<usize, Refusal>
    ensures { GridPromise
        envelope.now period
        score.old back.old beats.old
        (listing result)
        score.new back.new beats.new }
{
    grid_refusal(envelope, period, score.len(), back.len(), beats.len())?;
    if envelope.len() == 0 {
        return Ok(0);
    }
    if period == 0 {
        return Ok(0);
    }
    let variance = envelopes::variance_of(envelope);
    if variance <= numbers::EPSILON {
        return Ok(0);
    }
    let count = grids::lay_grid(
        envelope,
        1.0 / roots::sqrt(variance),
        period,
        score,
        back,
        beats,
    );
    Ok(count)
}

fn grid_refusal(
    envelope: &[f64],
    period: usize,
    score: usize,
    back: usize,
    beats: usize,
) -> Result<(), Refusal>
    ensures { number_of result ≡ grid_refusal envelope.now period score back beats }
{
    let n = envelope.len();
    if n > numbers::MOST_ROWS {
        return Err(Refusal::OutOfBounds);
    }
    if period > numbers::MOST_PERIOD {
        return Err(Refusal::OutOfBounds);
    }
    if score < n {
        return Err(Refusal::TooLittleRoom);
    }
    if back < n {
        return Err(Refusal::TooLittleRoom);
    }
    if beats < n {
        return Err(Refusal::TooLittleRoom);
    }
    if !numbers::values_fine(envelope) {
        return Err(Refusal::WrongValue);
    }
    Ok(())
}
