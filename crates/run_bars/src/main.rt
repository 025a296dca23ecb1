// Runs the calls of `bars` on both sides of each boundary and prints what they answer; the file stdout holds what must come out.
#![tactic(auto)]

ghost use Rattle.std.specs.Prelude.{◌≤◌};

use bars::BarBeat;
use numbers::Refusal;
use options::TempoOpts;

// The cases of `downbeats`, one to a line: the envelope, by its letter, and the values of it from one number up to the next; the beats
// likewise; how many of twelve slots are lent; and what the line begins with. Those of another meter begin with m and have the meter instead: their
// envelope has all nine values, their beats are b09, and all twelve slots are lent.
fn grids(rt: &impl Print) {
    each_case(
        rt,
        "\
          a06 a03 3 M11:\n\
          b09 b09 9 nine beats:\n\
          b09 b08 8 the fourth phase:\n\
          b09 b56 c one beat:\n\
          b09 b00 0 no beats, no room:\n\
          b09 c06 c not ascending, twice the same:\n\
          a01 b19 8 a tie of all four:\n\
          b04 d06 6 beats past the envelope:\n\
          b00 d06 6 no envelope:\n\
          c06 b03 4 negative, an empty phase wins:\n\
          c06 b04 4 negative, no phase is empty:\n\
          c06 e04 4 -0 is as great as +0:\n\
          c02 b04 4 a beat past the envelope beats a negative one:\n\
          b02 f02 2 frame 1,048,575:\n\
          b02 g02 2 frame 1,048,576:\n\
          b02 h02 2 frame 4,294,967,295, first:\n\
          b02 g02 1 1 before 3:\n\
          b04 i05 5 a slot for each of five beats:\n\
          b04 i05 4 one slot too few:\n\
          b04 i01 0 no room:\n\
          d02 b02 2 size 2^150:\n\
          e02 b02 2 the next float above 2^150:\n\
          k02 b01 2 a NaN that no beat reads:\n\
          k23 b02 2 an infinity:\n\
          k34 b02 2 minus infinity:\n\
          k12 b00 0 a NaN and no beats:\n\
          k04 b02 1 3 before 4:\n\
          m   b   0 meter 0:\n\
          m   b   1 meter 1:\n\
          m   b   2 meter 2:\n\
          m   b   3 meter 3:\n\
          m   b   4 meter 4:\n\
          m   b   g meter 16:\n\
          m   b   h meter 17:\n\
          m   m   3 a waltz in bars of three:\n\
          m   m   4 a waltz in bars of four:\n\
          m   h   3 a tie of all three:\n",
    );
}

// The cases of `bar_beat_at`, one to a line: the time, as a letter and the value's place; the downbeats, by their letter, and the values from
// one number up to the next; the beats likewise; and what the line begins with.
fn places(rt: &impl Print) {
    each_case(
        rt,
        "\
          t l0 g02 f08 before the first bar:\n\
          t l1 g02 f08 on the first downbeat:\n\
          t l2 g02 f08 between beats:\n\
          t l3 g02 f08 on a beat:\n\
          t l4 g02 f08 on the second downbeat:\n\
          t l5 g02 f08 past the last beat:\n\
          t l2 g00 f08 no downbeats:\n\
          t l2 g02 f00 no beats:\n\
          t l2 g00 f00 neither:\n\
          t i0 h01 h02 a slack before:\n\
          t i1 h01 h02 more than a slack before:\n\
          t i2 i34 h02 a downbeat a slack late:\n\
          t i2 i45 h02 a downbeat later than that:\n\
          t i2 h01 i05 beats at both slacks:\n\
          t i2 h12 j02 a beat a slack before its bar:\n\
          t i2 h12 i13 a beat earlier than that:\n\
          t k1 k06 k06 time NaN:\n\
          t k2 k06 k06 time infinity:\n\
          t k3 k06 k06 time minus infinity:\n\
          t l6 k06 k06 time 2.5:\n\
          t l6 k12 k06 a downbeat NaN alone:\n\
          t k2 k23 k06 a downbeat infinity alone:\n\
          t l8 k34 k06 a downbeat minus infinity alone:\n\
          t l7 k04 k06 not ascending, the last that is reached:\n",
    );
}

// 2^150, and the next float above it.
const TOP: f64 = 1427247692705959881058285969449495136382746624.0;

const ABOVE: f64 = 1427247692705960197970935322542740166810075136.0;

// The slack, and the next float above it.
const SLACK: f64 = 0.000001;

const MORE: f64 = 0.0000010000000000000002;

// Envelopes and times by their letters; k is no constant.
const VALUES: [[f64; 9]; 13] = [
    [0.0, 4.0, 0.0, 4.0, 0.0, 4.0, 0.0, 0.0, 0.0], // a: M11
    [1.0, 2.0, 3.0, 4.0, 5.0, 6.0, 7.0, 8.0, 9.0], // b: ascending
    [-1.0, -2.0, -3.0, -4.0, -0.0, -0.0, 0.0, 0.0, 0.0], // c: none above zero
    [TOP, -TOP, 0.0, 0.0, 0.0, 0.0, 0.0, 0.0, 0.0], // d: size 2^150
    [1.0, ABOVE, 0.0, 0.0, 0.0, 0.0, 0.0, 0.0, 0.0], // e: the next float above 2^150
    [100.0, 200.0, 300.0, 400.0, 500.0, 600.0, 700.0, 800.0, 0.0], // f: beats
    [100.0, 500.0, 0.0, 0.0, 0.0, 0.0, 0.0, 0.0, 0.0], // g: their downbeats
    [0.0, -0.0, 0.0, 0.0, 0.0, 0.0, 0.0, 0.0, 0.0], // h: zeros
    [-SLACK, -MORE, 0.0, SLACK, MORE, 0.0, 0.0, 0.0, 0.0], // i: a slack from zero and more
    [-SLACK, 0.0, 0.0, 0.0, 0.0, 0.0, 0.0, 0.0, 0.0], // j: a slack before zero
    [0.0, 0.0, 0.0, 0.0, 0.0, 0.0, 0.0, 0.0, 0.0], // k: below
    [99.0, 100.0, 350.0, 400.0, 500.0, 9000.0, 2.5, 1.5, 1.0], // l: times
    [1.0, 4.0, 1.0, 1.0, 4.0, 1.0, 1.0, 4.0, 1.0], // m: a waltz, the accent on every third from the second on
];

fn values_of(byte: u8) -> [f64; 9] {
    let k = run_cases::letter(byte);
    if k != 10 && k < 13 {
        return VALUES[k];
    }
    // k: not ascending, a NaN and the infinities
    [
        1.0,
        0.0 / 0.0,
        1.0 / 0.0,
        -1.0 / 0.0,
        3.0,
        2.0,
        0.0,
        0.0,
        0.0,
    ]
}

// Beats by their letters.
const FRAMES: [[u32; 9]; 9] = [
    [1, 3, 5, 0, 0, 0, 0, 0, 0], // a: M11
    [0, 1, 2, 3, 4, 5, 6, 7, 8], // b: ascending
    [8, 2, 2, 0, 1, 7, 0, 0, 0], // c: not ascending, twice the same
    [4, 2, 1048575, 3, 0, 9, 0, 0, 0], // d: past the envelope
    [1, 4, 2, 5, 0, 0, 0, 0, 0], // e: at -0
    [1048575, 1, 0, 0, 0, 0, 0, 0, 0], // f: the last frame
    [0, 1048576, 0, 0, 0, 0, 0, 0, 0], // g: one more
    [4294967295, 1, 0, 0, 0, 0, 0, 0, 0], // h: the largest number
    [0, 1, 2, 3, 0, 0, 0, 0, 0], // i: five beats
];

fn frames_of(byte: u8) -> [u32; 9] {
    let k = run_cases::letter(byte);
    if k < 9 {
        return FRAMES[k];
    }
    [0; 9]
}

// Runs each case of a text.
fn each_case(rt: &impl Print, cases: &str) {
    for line in cases.lines() {
        case(rt, line.as_bytes());
    }
}

fn case(rt: &impl Print, c: &[u8]) {
    if c.len() < 13 {
        return;
    }
    match c[0] {
        b'm' => in_meter(rt, c),
        b't' => at(rt, c),
        _ => in_room(rt, c),
    }
}

fn in_room(rt: &impl Print, c: &[u8]) {
    if c.len() < 10 {
        return;
    }
    run_show::words(rt, &c[10..]);
    let past = run_cases::digit(c[2], 9);
    let from = run_cases::digit(c[1], past);
    let envelope = values_of(c[0]);
    with_beats(rt, &envelope[from..past], c);
}

fn with_beats(rt: &impl Print, envelope: &[f64], c: &[u8]) {
    if c.len() < 10 {
        return;
    }
    let room = run_cases::digit(c[8], 12);
    let past = run_cases::digit(c[6], 9);
    let from = run_cases::digit(c[5], past);
    let beats = frames_of(c[4]);
    lent(rt, envelope, &beats[from..past], room);
}

// What is answered where the first `room` slots are lent, and all of them afterwards.
fn lent(rt: &impl Print, envelope: &[f64], beats: &[u32], room: usize)
    requires { room ≤ 12 }
{
    let mut frames = [77u32; 12];
    let r = bars::downbeats(envelope, beats, TempoOpts::new(), &mut frames[0..room]);
    told(rt, r, &frames);
}

fn told(rt: &impl Print, listed: Result<usize, Refusal>, frames: &[u32; 12]) {
    run_show::listing(rt, listed);
    run_show::words(rt, b", frames");
    run_show::smalls(rt, frames);
    run_show::end(rt);
}

fn in_meter(rt: &impl Print, c: &[u8]) {
    if c.len() < 10 {
        return;
    }
    run_show::words(rt, &c[10..]);
    let opts = TempoOpts::new().with_meter(run_cases::digit(c[8], 17));
    let envelope = values_of(c[4]);
    let beats = frames_of(b'b');
    let mut frames = [77u32; 12];
    let r = bars::downbeats(&envelope, &beats, opts, &mut frames);
    told(rt, r, &frames);
}

fn at(rt: &impl Print, c: &[u8]) {
    if c.len() < 13 {
        return;
    }
    run_show::words(rt, &c[13..]);
    let time = value_of(c[2], run_cases::digit(c[3], 8));
    let past = run_cases::digit(c[7], 9);
    let from = run_cases::digit(c[6], past);
    let downbeats = values_of(c[5]);
    among_beats(rt, time, &downbeats[from..past], c);
}

fn value_of(byte: u8, i: usize) -> f64
    requires { i ≤ 8 }
{
    let values = values_of(byte);
    values[i]
}

fn among_beats(rt: &impl Print, time: f64, downbeats: &[f64], c: &[u8]) {
    if c.len() < 13 {
        return;
    }
    let past = run_cases::digit(c[11], 9);
    let from = run_cases::digit(c[10], past);
    let beats = values_of(c[9]);
    place(rt, bars::bar_beat_at(time, downbeats, &beats[from..past]));
}

fn place(rt: &impl Print, a: BarBeat) {
    match a {
        BarBeat::Nowhere => run_show::words(rt, b" nowhere"),
        BarBeat::At { bar, beat } => {
            run_show::words(rt, b" bar");
            run_show::count(rt, bar);
            run_show::words(rt, b" beat");
            run_show::count(rt, beat);
        }
    }
    run_show::end(rt);
}

fn main(rt: HostRuntime) {
    grids(&rt);
    places(&rt);
}
