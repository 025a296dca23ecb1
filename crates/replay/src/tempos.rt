// Lags, tempo, stability, beats and bars of envelopes of sixty slots, at rates that have few lags.
use crate::{inputs, lines};
use bars::BarBeat;
use lags::LagRange;
use numbers::Refusal;
use options::TempoOpts;
use stability::Stability;
use tempo::{Candidate, Tempo, TempoEstimate};

// What is printed where no lags are named.
const NO_LAGS: LagRange = LagRange {
    min_lag: 0,
    max_lag: 0,
};

fn range(rt: &impl Print, rate: u32, opts: TempoOpts) {
    let answer = lags::lag_range(rate, opts);
    let r = answer.unwrap_or(NO_LAGS);
    run_show::words(rt, b"lags");
    run_show::outcome(rt, &answer);
    run_show::count(rt, r.min_lag);
    run_show::count(rt, r.max_lag);
    run_show::end(rt);
}

fn candidate(rt: &impl Print, c: Candidate) {
    run_show::count(rt, c.lag);
    run_show::float(rt, c.salience);
}

fn found(rt: &impl Print, t: Tempo) {
    match t {
        Tempo::None => run_show::words(rt, b" none"),
        Tempo::Found { bpm, clarity } => {
            run_show::float(rt, bpm);
            run_show::float(rt, clarity);
        }
    }
}

// What is printed where nothing is estimated.
const NO_ESTIMATE: TempoEstimate = TempoEstimate {
    tempo: Tempo::None,
    candidates: [Candidate {
        lag: 0,
        salience: 0.0,
    }; 3],
    count: 0,
};

fn told(rt: &impl Print, answer: Result<TempoEstimate, Refusal>) {
    let e = answer.unwrap_or(NO_ESTIMATE);
    run_show::words(rt, b"tempo");
    run_show::outcome(rt, &answer);
    found(rt, e.tempo);
    run_show::count(rt, e.count);
    for &c in &e.candidates {
        candidate(rt, c);
    }
    run_show::end(rt);
}

// The lag of a tempo, or a period without one.
fn lag_of(answer: Result<TempoEstimate, Refusal>, period: usize) -> usize {
    match answer {
        Ok(e) if e.count > 0 => e.candidates[0].lag,
        _ => period,
    }
}

// The tempo, and the lag to go on with.
fn searched(rt: &impl Print, envelope: &[f64], rate: u32, opts: TempoOpts, s: u64) -> usize {
    let mut clarity = [0.0f64; 60];
    let mut weight = [0.0f64; 60];
    let mut work = [0.0f64; 60];
    let e = tempo::estimate(
        envelope,
        2,
        rate,
        opts,
        &mut clarity,
        &mut weight,
        &mut work,
    );
    told(rt, e);
    lag_of(e, inputs::up_to_twenty(s))
}

fn windows(rt: &impl Print, envelope: &[f64], rate: u32, opts: TempoOpts, lag: usize) {
    let mut clarity = [0.0f64; 60];
    let mut weight = [0.0f64; 60];
    let mut work = [0.0f64; 60];
    let answer = stability::stability_of(
        envelope,
        rate,
        opts,
        lag,
        &mut clarity,
        &mut weight,
        &mut work,
    );
    steady(rt, answer.unwrap_or(Stability::None));
}

fn steady(rt: &impl Print, stability: Stability) {
    run_show::words(rt, b"stability");
    match stability {
        Stability::None => run_show::words(rt, b" none"),
        Stability::Share {
            fraction,
            agreeing,
            windows,
        } => {
            run_show::float(rt, fraction);
            run_show::count(rt, agreeing);
            run_show::count(rt, windows);
        }
    }
    run_show::end(rt);
}

// The beats, the last score, and the bars of the beats.
fn beats_of(rt: &impl Print, envelope: &[f64], period: usize) {
    let mut score = [0.0f64; 60];
    let mut back = [0u32; 60];
    let mut beats = [0u32; 60];
    let answer = beats::beat_grid(envelope, period, &mut score, &mut back, &mut beats);
    lines::frames(rt, b"beats", answer, &beats);
    run_show::words(rt, b"last score");
    run_show::float(rt, score[59]);
    run_show::end(rt);
    bars_of(rt, envelope, lines::first(&beats, answer.unwrap_or(0)));
}

fn bars_of(rt: &impl Print, envelope: &[f64], beats: &[u32]) {
    let mut frames = [0u32; 60];
    let answer = bars::downbeats(envelope, beats, TempoOpts::new(), &mut frames);
    lines::frames(rt, b"downbeats", answer, &frames);
}

fn at(rt: &impl Print, time: f64, downbeats: &[f64], beats: &[f64]) {
    run_show::words(rt, b"at");
    let a = bars::bar_beat_at(time, downbeats, beats);
    match a {
        BarBeat::Nowhere => run_show::words(rt, b" nowhere"),
        BarBeat::At { bar, beat } => {
            run_show::count(rt, bar);
            run_show::count(rt, beat);
        }
    }
    run_show::end(rt);
}

fn places(rt: &impl Print, s: u64) {
    let mut beats = [0.0f64; 30];
    let mut downbeats = [0.0f64; 7];
    inputs::fill(&mut beats, s);
    inputs::fill(&mut downbeats, s);
    at(
        rt,
        inputs::level(s % 4, 1, inputs::next(s)),
        &downbeats,
        &beats,
    );
}

pub fn round(rt: &impl Print, s: u64) {
    let mut envelope = [0.0f64; 60];
    inputs::fill(&mut envelope, s);
    let rate = (s % 5000) as u32 + 1;
    let opts = TempoOpts::between(30.0 + inputs::level(2, 0, s), 300.0);
    range(rt, rate, opts);
    let lag = searched(rt, &envelope, rate, opts, s);
    windows(rt, &envelope, rate, opts, lag);
    beats_of(rt, &envelope, lag);
    places(rt, s);
}
