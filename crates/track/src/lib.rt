// One whole track where nothing is refused: onsets, tempo, stability, beats and downbeats, each part called in turn.
//
// Document 01, Onsets, Tempo and candidates, Beats and bars. Inner: the calls of crate analysis have looked at what is lent.
#![tactic(auto)]

ghost use Rattle.std.specs.Prelude.{◌≡◌, Ok};
ghost use Rattle.rooms.specs.Rooms.{results, spare};
ghost use Rattle.rooms.specs.Inner.{Ready};
ghost use Rattle.tempo.specs.Answers.{estimate_said};
ghost use Rattle.track.specs.Analyses.{winners_lag, Analysed, analysis_said};

use onsets::list_onsets;
use options::TempoOpts;
use stability::Stability;
use tempo::{Candidate, Tempo, TempoEstimate, estimate};
use track_parts::follow;

// The answer of an analysis: how many onsets, beats and downbeats are listed, the tempo with `count` candidates, the winner first, and how
// steady it is.
#[derive(Clone, Copy)]
pub struct Analysis {
    pub onsets: usize,
    pub tempo: Tempo,
    pub candidates: [Candidate; 3],
    pub count: usize,
    pub stability: Stability,
    pub beats: usize,
    pub downbeats: usize,
}

// the lag of the first candidate, 0 where there is none
fn winners_lag(tempo: TempoEstimate) -> usize
    ensures { result ≡ winners_lag (estimate_said (Ok tempo)) }
{
    let candidates = tempo.candidates;
    let winner = candidates[0];
    winner.lag
}

// Inner: the analysis where nothing is refused. What it requires leaves no part anything to refuse.
pub fn analyse(
    envelope: &[f64],
    rate: u32,
    opts: TempoOpts,
    threshold: &mut [f64],
    onsets: &mut [u32],
    clarity: &mut [f64],
    weight: &mut [f64],
    window_clarity: &mut [f64],
    window_weight: &mut [f64],
    score: &mut [f64],
    back: &mut [u32],
    beats: &mut [u32],
    downbeats: &mut [u32],
    work: &mut [f64],
) -> Analysis
    requires { Ready envelope.now rate opts
        (results threshold.old onsets.old clarity.old weight.old score.old back.old beats.old downbeats.old)
        (spare window_clarity.old window_weight.old work.old) }
    ensures { Analysed 0 envelope.now rate opts
        (results
        threshold.old onsets.old clarity.old weight.old
        score.old back.old beats.old downbeats.old)
        (spare window_clarity.old window_weight.old work.old)
        (analysis_said (Ok result))
        (results
        threshold.new onsets.new clarity.new weight.new
        score.new back.new beats.new downbeats.new)
        (spare window_clarity.new window_weight.new work.new) }
{
    let heard = list_onsets(envelope, rate, threshold, onsets, work);
    let found = estimate(envelope, heard, rate, opts, clarity, weight, work).unwrap();
    let tempo = found.tempo;
    let candidates = found.candidates;
    let lag = winners_lag(found);
    let after = follow(
        envelope,
        rate,
        opts,
        lag,
        window_clarity,
        window_weight,
        score,
        back,
        beats,
        downbeats,
        work,
    );
    let stability = after.stability;
    Analysis {
        onsets: heard,
        tempo,
        candidates,
        count: found.count,
        stability,
        beats: after.beats,
        downbeats: after.downbeats,
    }
}
