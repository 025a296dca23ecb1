// Request No. 5 by brute force: calls `beats::beat_grid` on small envelopes and walks every chain of their frames, by the words of chains/specs/Chains
// and not by the call's; the grid is one of them, and its rivals are held to the score of its own walk. The penalty of an interval, mean, count as a float
// and root are the library's (`penalty_of`, `mean_of`, `float_of`, `sqrt`), proved where they stand; window, scores and search are written here anew.
// The file stdout holds what must come out: 0 chains are better, and the first frame at which one as good ends is the grid's last.
#![tactic(auto)]

ghost use Rattle.std.specs.Prelude.{◌<◌, ◌≤◌};

use beat_links::penalties::penalty_of;

// Envelopes of at most nine frames.
const ENVELOPES: [&[f64]; 14] = [
    &[0.0, 4.0, 0.0, 4.0, 0.0, 4.0], // 0: M11
    &[1.0, 0.0, 3.0, 1.0, 0.0, 2.0, 5.0, 0.0, 4.0], // 1: unlike frames
    &[5.0, 1.0, 1.0, 5.0, 1.0, 1.0, 5.0, 1.0, 1.0], // 2: ends that tie
    &[0.0, 4.0, 4.0, 4.0, 0.0, 0.0], // 3: a plateau
    &[9.0, -1.0, -2.0, -1.0, -2.0, -1.0, -3.0], // 4: the first frame, then below zero
    &[-0.0, 4.0, -0.0, -4.0, -0.0, 4.0, 0.0, -4.0, 4.0], // 5: -0 and values below zero
    &[-1.0, -2.0, -3.0, -1.0, -2.0, -3.0, -1.0, -2.0, -3.0], // 6: none above zero
    &[
        1000.0, 1001.0, 1000.0, 1001.0, 1000.0, 1001.0, 1000.0, 1001.0, 1000.0,
    ], // 7: far from 0, so that every extension counts
    &[1000.0, 1001.0], // 8: a shorter first gap from frame 0
    &[
        -1000.0, -1001.0, -1000.0, -999.0, -1000.0, -1001.0, -1000.0, -999.0, -1000.0,
    ], // 9: far below 0
    &[
        1152921504606846976.0,
        1152921504606846976.0,
        1152921504606847232.0,
        1152921504606846976.0,
        1152921504606846976.0,
        1152921504606846976.0,
        1152921504606847232.0,
        1152921504606846976.0,
        1152921504606847488.0,
    ], // 10: 2^60 and the next two floats, where penalties are rounded
    &[0.1, 0.7, 0.2, 0.9, 0.3, 0.6, 0.05, 1.1, 0.4], // 11: sums that round
    &[2.0, 7.0, 1.0, 8.0, 2.0, 8.0, 1.0, 8.0], // 12: steps of two
    &[3.0, 3.0, 3.0, 3.0], // 13: no beats
];

const PERIODS: [u32; 6] = [1, 2, 3, 4, 7, 100];

// One of thirteen frames, whose grid at period 11 has a gap above the period.
const LONG: [f64; 13] = [
    12.0, 8.0, 10.0, 10.0, 10.0, 10.0, 10.0, 10.0, 10.0, 10.0, 10.0, 8.0, 12.0,
];

// A chain, frame by frame: whether it has begun and each step was allowed, what it scores, its last frame.
#[derive(Clone, Copy)]
struct Chained {
    begun: bool,
    allowed: bool,
    score: f64,
    last: usize,
}

const NONE: Chained = Chained {
    begun: false,
    allowed: false,
    score: 0.0,
    last: 0,
};

// Whether a beat at frame t may follow one at frame s: "from max(0, t-2P) to max(0, t-half)", "half = (P+1) div 2".
fn may_follow(period: u32, s: usize, t: usize) -> bool {
    let p = period as usize;
    t.saturating_sub(2 * p) <= s && s <= t.saturating_sub((p + 1) / 2)
}

// One frame more.
fn stepped(w: Chained, flux: f64, period: u32, t: usize) -> Chained {
    if !w.begun {
        return Chained {
            begun: true,
            allowed: true,
            score: flux + 0.0,
            last: t,
        };
    }
    let may = may_follow(period, w.last, t);
    Chained {
        begun: true,
        allowed: w.allowed && may,
        score: flux + (w.score + penalty_of(period as usize, t.saturating_sub(w.last))),
        last: t,
    }
}

// The frames of a set, which is a number with a binary digit for each; a set with a frame past the envelope is no chain.
fn walk(envelope: &[f64], scale: f64, period: u32, set: usize) -> Chained {
    let mut w = NONE;
    let mut rest = set;
    for (t, &flux) in envelope.iter().enumerate() {
        if rest % 2 == 1 {
            w = stepped(w, flux * scale, period, t);
        }
        rest /= 2;
    }
    if rest == 0 { w } else { NONE }
}

// How many chains there are, how many score more than the grid and how many as much, and the first frame at which one of these ends.
#[derive(Clone, Copy)]
struct Tally {
    chains: u32,
    better: u32,
    equal: u32,
    first: usize,
}

// One chain more.
fn counted(c: Tally, w: Chained, best: f64) -> Tally {
    if !w.allowed {
        return c;
    }
    let mut better = c.better;
    if best < w.score {
        better = better.wrapping_add(1);
    }
    let mut equal = c.equal;
    let mut first = c.first;
    if w.score == best {
        equal = equal.wrapping_add(1);
        first = first.min(w.last);
    }
    Tally {
        chains: c.chains.wrapping_add(1),
        better,
        equal,
        first,
    }
}

// Each set of at most thirteen frames.
fn each_chain(envelope: &[f64], scale: f64, period: u32, best: f64) -> Tally {
    let mut c = Tally {
        chains: 0,
        better: 0,
        equal: 0,
        first: 13,
    };
    for set in 1..8192 {
        c = counted(c, walk(envelope, scale, period, set), best);
    }
    c
}

// 1/sqrt(variance)
fn scale_of(envelope: &[f64]) -> f64 {
    let mean = lists::mean_of(envelope);
    let mut sum = 0.0;
    for &flux in envelope {
        let apart = flux - mean;
        sum += apart * apart;
    }
    1.0 / roots::sqrt(sum / lists::float_of(envelope.len()))
}

// The slot of a frame, the last where it is past the thirteenth.
fn place(frame: u32) -> usize
    ensures { result ≤ 12 }
{
    (frame as usize).min(12)
}

// The set of the frames that are listed.
fn set_of(beats: &[u32]) -> usize {
    let mut set = 0;
    for &frame in beats {
        set |= 1 << place(frame);
    }
    set
}

// What was listed, walked as every other chain is, and the score that the call wrote for its last frame.
fn show_grid(rt: &impl Print, grid: Chained, last: usize, slot: f64) {
    if !grid.allowed || grid.last != last {
        run_show::words(rt, b", no chain");
    }
    if grid.score == slot {
        run_show::words(rt, b", scores its slot");
        return;
    }
    run_show::words(rt, b", another score than its slot");
}

// The rest of a line: the grid, and what is found among all chains.
fn run(rt: &impl Print, envelope: &[f64], period: u32) {
    let mut score = [0.0f64; 13];
    let mut back = [0u32; 13];
    let mut beats = [0u32; 13];
    let answer = beats::beat_grid(envelope, period as usize, &mut score, &mut back, &mut beats);
    let count = answer.unwrap_or(0).min(13);
    let listed = &beats[..count];
    run_show::words(rt, b", beats");
    run_show::smalls(rt, listed);
    if count == 0 {
        run_show::words(rt, b" none\n");
        return;
    }
    let scale = scale_of(envelope);
    let grid = walk(envelope, scale, period, set_of(listed));
    let last = place(beats[count - 1]);
    show_grid(rt, grid, last, score[last]);
    let c = each_chain(envelope, scale, period, grid.score);
    run_show::words(rt, b": chains");
    run_show::small(rt, c.chains);
    run_show::words(rt, b", better");
    run_show::small(rt, c.better);
    run_show::words(rt, b", as good");
    run_show::small(rt, c.equal);
    run_show::words(rt, b", the first ends at");
    run_show::count(rt, c.first);
    run_show::end(rt);
}

// What a line begins with.
fn name(rt: &impl Print, envelope: usize, period: u32) {
    run_show::words(rt, b"envelope");
    run_show::count(rt, envelope);
    run_show::words(rt, b", period");
    run_show::small(rt, period);
}

// The lines of an envelope, one for each period.
fn lines(rt: &impl Print, k: usize, envelope: &[f64]) {
    for &period in &PERIODS {
        name(rt, k, period);
        run(rt, envelope, period);
    }
}

// Each envelope at each period, then the long one.
fn main(rt: HostRuntime) {
    for (k, &envelope) in ENVELOPES.iter().enumerate() {
        lines(&rt, k, envelope);
    }
    name(&rt, 14, 11);
    run(&rt, &LONG, 11);
}
