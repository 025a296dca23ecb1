// Runs `beats::beat_grid` on both sides of each boundary and prints what it answers; the file stdout holds what must come out.
#![tactic(auto)]

ghost use Rattle.std.specs.Prelude.{◌≤◌};

// The cases, one to a line: the envelope, by its letter, and the frames of it from one number up to the next; so many slots lent of score, of
// back and of beats; the period, a digit or its letter; and what the line begins with. Envelopes s and t are taken whole, with fifty slots of each.
fn grids(rt: &impl Print) {
    each_grid(
        rt,
        "\
          a06 888 2 M11:\n\
          b04 888 2 M12:\n\
          b00 888 2 no frames:\n\
          a12 888 2 one frame:\n\
          a02 888 2 two frames:\n\
          a16 888 2 M11 from its second frame:\n\
          c08 888 0 period 0:\n\
          c08 888 1 period 1:\n\
          c08 888 2 period 2:\n\
          c08 888 3 period 3:\n\
          c08 888 4 period 4:\n\
          c08 888 5 period 5:\n\
          c08 888 8 period 8, the envelope's length:\n\
          c08 888 9 period 9:\n\
          d06 888 d period 2,048:\n\
          d06 888 e period 2,049:\n\
          d06 888 f period 45,000:\n\
          c08 888 g period 45,001:\n\
          c08 888 h period 18,446,744,073,709,551,615:\n\
          e08 888 4 frame 0 for t below half:\n\
          e08 888 1 period 1, two earlier frames:\n\
          e08 888 2 period 2, equal extensions:\n\
          e08 888 3 period 3:\n\
          e08 888 7 period 7:\n\
          e08 888 c period 100:\n\
          f04 888 a the first frame alone:\n\
          g06 888 2 the first frame, then below zero:\n\
          h06 888 c a plateau:\n\
          h06 888 1 a plateau, period 1:\n\
          h06 888 2 a plateau, period 2:\n\
          i06 888 b two ends with one score:\n\
          j06 888 2 -0 and values below zero:\n\
          k04 888 2 zeros alone:\n\
          l04 888 2 variance below 2^-52:\n\
          m04 888 2 variance above 2^-52:\n\
          n04 888 2 variance 2^-52:\n\
          o04 888 2 the next variance:\n\
          c06 666 2 exactly full:\n\
          c06 566 2 score one short:\n\
          c06 656 2 back one short:\n\
          c06 665 2 beats one short:\n\
          c06 787 2 more room than frames:\n\
          c00 000 2 no room, no frames:\n\
          c06 000 0 no room, period 0:\n\
          c06 665 0 room asked where nothing is answered:\n\
          c06 665 g 1 before 3:\n\
          p03 888 2 size 2^150:\n\
          q03 888 2 the next float above 2^150:\n\
          r02 888 2 a NaN:\n\
          r23 888 2 an infinity:\n\
          r34 888 2 minus infinity:\n\
          r02 888 0 a NaN, period 0:\n\
          r04 388 2 3 before 4:\n\
          r04 888 g 1 before 4:\n\
          s.. ... 6 pulses, period 6:\n\
          s.. ... 7 pulses, period 7:\n\
          s.. ... 8 pulses, period 8:\n\
          s.. ... i pulses, period 12:\n\
          s.. ... j pulses, period 20:\n\
          t.. ... k ties, period 16:\n\
          t.. ... l ties, period 24:\n\
          t.. ... m ties, period 30:\n",
    );
}

// The envelopes by their letters; r is no constant. Values far from 0 with little between them, as in d and e, are large when scaled, so that every
// extension counts.
const ENVELOPES: [[f64; 8]; 17] = [
    [0.0, 4.0, 0.0, 4.0, 0.0, 4.0, 0.0, 0.0], // a: M11
    [4.0, 4.0, 4.0, 4.0, 0.0, 0.0, 0.0, 0.0], // b: M12
    [1.0, 0.0, 3.0, 1.0, 0.0, 2.0, 5.0, 0.0], // c: unlike frames
    [
        1000000.0, 1000001.0, 1000000.0, 1000001.0, 1000000.0, 1000002.0, 0.0, 0.0,
    ], // d: farther from 0
    [
        1000.0, 1001.0, 1000.0, 1001.0, 1000.0, 1001.0, 1000.0, 1001.0,
    ], // e: far from 0
    [9.0, 0.0, 0.0, 0.0, 0.0, 0.0, 0.0, 0.0], // f: the first frame alone
    [9.0, -1.0, -2.0, -1.0, -2.0, -1.0, 0.0, 0.0], // g: the first frame, then below zero
    [0.0, 4.0, 4.0, 4.0, 0.0, 0.0, 0.0, 0.0], // h: a plateau
    [5.0, 1.0, 1.0, 5.0, 1.0, 1.0, 0.0, 0.0], // i: two ends with one score
    [-0.0, 4.0, -0.0, -4.0, -0.0, 4.0, 0.0, 0.0], // j: -0 and values below zero
    [0.0, -0.0, 0.0, -0.0, 0.0, 0.0, 0.0, 0.0], // k: zeros
    [0.00000001, 0.0, 0.00000001, 0.0, 0.0, 0.0, 0.0, 0.0], // l: variance below 2^-52
    [0.0000001, 0.0, 0.0000001, 0.0, 0.0, 0.0, 0.0, 0.0], // m: variance above 2^-52
    [FLAT, 0.0, FLAT, 0.0, 0.0, 0.0, 0.0, 0.0], // n: variance 2^-52
    [UNFLAT, 0.0, UNFLAT, 0.0, 0.0, 0.0, 0.0, 0.0], // o: the next variance
    [TOP, -TOP, 0.0, 0.0, 0.0, 0.0, 0.0, 0.0], // p: size 2^150
    [1.0, ABOVE, 0.0, 0.0, 0.0, 0.0, 0.0, 0.0], // q: the next float above 2^150
];

// Of four values, two of them 2^-25 and two 0, a variance of exactly 2^-52; and the next above it that such values have.
const FLAT: f64 = 0.0000000298023223876953125;

const UNFLAT: f64 = 0.00000002980232238769532;

// 2^150, and the next float above it.
const TOP: f64 = 1427247692705959881058285969449495136382746624.0;

const ABOVE: f64 = 1427247692705960197970935322542740166810075136.0;

fn envelope_of(byte: u8) -> [f64; 8] {
    let k = run_cases::letter(byte);
    if k < 17 {
        return ENVELOPES[k];
    }
    // r: a NaN, an infinity, minus infinity
    [1.0, 0.0 / 0.0, 1.0 / 0.0, -1.0 / 0.0, 0.0, 0.0, 0.0, 0.0]
}

// The periods above 9 by their letters.
const LONG_PERIODS: [usize; 13] = [
    10, // a
    50, // b
    100, // c
    2048, // d
    2049, // e
    45000, // f
    45001, // g
    18446744073709551615, // h
    12, // i
    20, // j
    16, // k
    24, // l
    30, // m
];

fn period_of(byte: u8) -> usize {
    if byte < b'a' {
        return run_cases::digit(byte, 9);
    }
    let k = run_cases::letter(byte);
    if k < 13 {
        return LONG_PERIODS[k];
    }
    0
}

// Runs each case of a text.
fn each_grid(rt: &impl Print, cases: &str) {
    for line in cases.lines() {
        grid(rt, line.as_bytes());
    }
}

fn grid(rt: &impl Print, c: &[u8]) {
    if c.len() < 10 {
        return;
    }
    if b's' <= c[0] {
        long_grid(rt, c);
        return;
    }
    let e = envelope_of(c[0]);
    let past = run_cases::digit(c[2], 8);
    let from = run_cases::digit(c[1], past);
    run_show::words(rt, &c[10..]);
    run(
        rt,
        &e[from..past],
        period_of(c[8]),
        run_cases::digit(c[4], 50),
        run_cases::digit(c[5], 50),
        run_cases::digit(c[6], 50),
        8,
    );
}

// The rest of a line: what is answered where the first slots of three lists are lent, so many of score, of back and of beats, and the first slots of
// each afterwards, lent or not.
fn run(
    rt: &impl Print,
    envelope: &[f64],
    period: usize,
    scores: usize,
    links: usize,
    frames: usize,
    shown: usize,
) {
    let mut score = [7.5f64; 50];
    let mut back = [77u32; 50];
    let mut beats = [88u32; 50];
    let r = beats::beat_grid(
        envelope,
        period,
        &mut score[0..scores.min(50)],
        &mut back[0..links.min(50)],
        &mut beats[0..frames.min(50)],
    );
    run_show::listing(rt, r);
    left(rt, &score, &back, &beats, shown.min(50));
}

// The first n slots of each list.
fn left(rt: &impl Print, score: &[f64; 50], back: &[u32; 50], beats: &[u32; 50], n: usize)
    requires { n ≤ 50 }
{
    run_show::words(rt, b", beats");
    let frames = &beats[..];
    run_show::smalls(rt, &frames[0..n]);
    run_show::words(rt, b", back");
    let links = &back[..];
    run_show::smalls(rt, &links[0..n]);
    run_show::words(rt, b", score");
    let scores = &score[..];
    run_show::floats(rt, &scores[0..n]);
    run_show::end(rt);
}

// A line for forty-eight frames, where windows are long enough to be searched eight frames at a time.
fn long_grid(rt: &impl Print, c: &[u8]) {
    if c.len() < 10 {
        return;
    }
    let e = long_envelope(c[0]);
    run_show::words(rt, &c[10..]);
    run(rt, &e, period_of(c[8]), 50, 50, 50, 50);
}

fn long_envelope(byte: u8) -> [f64; 48] {
    if byte == b's' { PULSES } else { TIES }
}

const PULSES: [f64; 48] = [
    0.0, 3.0, 0.0, 0.0, 0.0, 1.0, 0.0, 0.0, 0.0, 4.0, 0.0, 0.0, 0.0, 0.0, 1.5, 0.0, 0.0, 3.5, 3.25,
    0.0, 0.0, 0.0, 0.0, 0.0, 0.0, 4.0, 0.0, 0.0, 0.0, 0.0, 0.0, 0.0, 0.0, -2.0, 2.0, 0.0, 0.0, 0.0,
    0.0, 0.0, 0.0, 4.0, 4.0, 0.0, 0.0, 0.0, 0.0, 0.0,
];

// 2^60, and the next two floats above it.
const FAR: f64 = 1152921504606846976.0;

const FARTHER: f64 = 1152921504606847232.0;

const FARTHEST: f64 = 1152921504606847488.0;

// So far from 0 that small penalties are lost in rounding: many extensions are equal, and the first is linked.
const TIES: [f64; 48] = [
    FAR, FAR, FAR, FARTHER, FAR, FAR, FAR, FAR, FAR, FAR, FAR, FAR, FAR, FAR, FAR, FAR, FAR, FAR,
    FAR, FAR, FARTHER, FARTHER, FAR, FAR, FAR, FAR, FAR, FAR, FAR, FAR, FARTHEST, FAR, FAR, FAR,
    FAR, FAR, FAR, FAR, FAR, FAR, FAR, FAR, FAR, FAR, FAR, FAR, FAR, FAR,
];

// Intervals of 36 and 49 frames have one penalty at period 42: frame 49 may follow frames 0 and 13 alike, and follows the first.
fn equal_extensions(rt: &impl Print) {
    let mut e = [0.0f64; 256];
    e[0] = 1.0;
    e[13] = 1.0;
    let mut score = [0.0f64; 256];
    let mut back = [77u32; 256];
    let mut beats = [88u32; 256];
    let r = beats::beat_grid(&e, 42, &mut score, &mut back, &mut beats);
    run_show::words(rt, b"equal extensions:");
    run_show::listing(rt, r);
    run_show::words(rt, b", frame 49");
    run_show::small(rt, back[49]);
    run_show::float(rt, score[49]);
    run_show::end(rt);
}

fn main(rt: HostRuntime) {
    grids(&rt);
    equal_extensions(&rt);
}
