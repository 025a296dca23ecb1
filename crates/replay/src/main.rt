// A fixed sample of the original's answers, replayed: every call but `room_of` and the whole analyses, on inputs made by a small sequence of whole
// numbers, a line for each answer; of long slices a part. The file stdout was printed by the Rust side, from docs/src, by `tools/judge sample`, which
// makes the same inputs.
#![tactic(auto)]

mod inputs; // inputs.rt: the sequence, and the curves and rows made of it
mod lines; // lines.rt: how an answer is written
mod curves; // curves.rt: medians, thresholds, onsets
mod tempos; // tempos.rt: lags, tempo, stability, beats and bars
mod forms; // forms.rt: similarity, novelty, sections
mod repairs; // repairs.rt: patches

fn round(rt: &impl Print, s: u64) {
    curves::round(rt, s);
    tempos::round(rt, s);
    forms::round(rt, s);
    repairs::round(rt, s);
}

fn main(rt: HostRuntime) {
    let mut s = 1;
    for _ in 0..100 {
        s = inputs::next(s);
        round(&rt, s);
    }
}
