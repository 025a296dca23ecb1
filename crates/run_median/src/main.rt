// Runs median_of and mad_of on both sides of each boundary of document 01 and prints what they answer, and the slots of the work slice
// that must not have changed: all five at a refusal, else those past the values. The file stdout holds what must come out.
#![tactic(auto)]

ghost use Rattle.std.specs.Prelude.{◌≤◌};

use numbers::Refusal;

// The cases, one to a line: a dot for median_of, or for mad_of the median by its letter; the values by their letter, from one number up to the
// next; how many of five slots are lent; and what the line begins with.
fn main(rt: HostRuntime) {
    each_case(
        &rt,
        "\
          . a04 4 median of 4, 1, 3, 2 in 4 slots:\n\
          . a04 5 in 5 slots:\n\
          . a04 3 in 3 slots:\n\
          . a03 3 of the first 3 in 3 slots:\n\
          . a02 2 of the first 2 in 2 slots:\n\
          . a01 1 of the first in 1 slot:\n\
          . a01 0 of the first in no slot:\n\
          . a00 5 of none in 5 slots:\n\
          . a00 0 of none in no slot:\n\
          . b03 3 median of 2^150, -2^150, 2^150:\n\
          . c02 2 of 1 and the next above 2^150:\n\
          . d02 2 of the next below -2^150 and 1:\n\
          . h03 3 of 1, 2, nan:\n\
          . h03 2 of 1, 2, nan in 2 slots:\n\
          . h34 1 of infinity:\n\
          . h45 1 of -infinity:\n\
          . e02 2 median of 0, -0:\n\
          . e14 3 of -0, -0, 0:\n\
          . e25 3 of -0, 0, 0:\n\
          . e05 5 of 0, -0, -0, 0, 0:\n\
          . f05 5 of 5, -1, -7, -2.5, 0.5:\n\
          . f15 4 of -1, -7, -2.5, 0.5:\n\
          a a04 4 distances of 4, 1, 3, 2 from 3 in 4 slots:\n\
          a a04 5 in 5 slots:\n\
          a a04 3 in 3 slots:\n\
          a a01 1 of the first in 1 slot:\n\
          a a01 0 of the first in no slot:\n\
          a a00 5 of none in 5 slots:\n\
          b b12 1 distance of -2^150 from 2^150:\n\
          c c12 1 of the next above 2^150 from 1:\n\
          d b12 1 of -2^150 from the next above 2^150:\n\
          e b12 1 from its negative:\n\
          i b12 1 from nan:\n\
          j b12 1 from infinity:\n\
          i b12 0 from nan in no slot:\n\
          i b00 0 of none from nan:\n\
          f e12 1 distance of -0 from 0:\n\
          g e01 1 of 0 from -0:\n\
          a a23 1 of 3 from 3:\n\
          a e01 1 of 0 from 3:\n\
          h g02 2 of 0.5, -0.5 from 0.25:\n",
    );
}

// 2^150, and the next float above it.
const TOP: f64 = 1427247692705959881058285969449495136382746624.0;

const ABOVE: f64 = 1427247692705960197970936026506845510558547968.0;

// The values by their letters; h is no constant.
const VALUES: [[f64; 5]; 7] = [
    [4.0, 1.0, 3.0, 2.0, 0.0], // a
    [TOP, -TOP, TOP, 0.0, 0.0], // b: size 2^150
    [1.0, ABOVE, 0.0, 0.0, 0.0], // c: the next above
    [-ABOVE, 1.0, 0.0, 0.0, 0.0], // d: the next below
    [0.0, -0.0, -0.0, 0.0, 0.0], // e: zeros
    [5.0, -1.0, -7.0, -2.5, 0.5], // f: of both signs
    [0.5, -0.5, 0.0, 0.0, 0.0], // g: halves
];

fn values_of(byte: u8) -> [f64; 5] {
    let k = run_cases::letter(byte);
    if k < 7 {
        return VALUES[k];
    }
    // h: a NaN and the infinities
    [1.0, 2.0, 0.0 / 0.0, 1.0 / 0.0, -1.0 / 0.0]
}

// The medians by their letters; i and j are no constants.
const MEDIANS: [f64; 8] = [
    3.0, // a
    TOP, // b
    1.0, // c
    ABOVE, // d
    -ABOVE, // e
    0.0, // f
    -0.0, // g
    0.25, // h
];

fn median_from(byte: u8) -> f64 {
    let k = run_cases::letter(byte);
    if k < 8 {
        return MEDIANS[k];
    }
    if k == 8 {
        return 0.0 / 0.0;
    }
    1.0 / 0.0
}

// Runs each case of a text.
fn each_case(rt: &impl Print, cases: &str) {
    for line in cases.lines() {
        case(rt, line.as_bytes());
    }
}

fn case(rt: &impl Print, c: &[u8]) {
    if c.len() < 8 {
        return;
    }
    run_show::words(rt, &c[8..]);
    let kind = c[0];
    let room = run_cases::digit(c[6], 5);
    let past = run_cases::digit(c[4], 5);
    let from = run_cases::digit(c[3], past);
    let values = values_of(c[2]);
    line(rt, kind, &values[from..past], room);
}

fn line(rt: &impl Print, kind: u8, values: &[f64], room: usize) {
    if kind == b'.' {
        median_line(rt, values, room);
        return;
    }
    mad_line(rt, values, median_from(kind), room);
}

// The median with the first `room` of five slots lent.
fn median_line(rt: &impl Print, values: &[f64], room: usize) {
    let mut work = [9.0f64; 5];
    let a = median::median_of(values, &mut work[0..room.min(5)]);
    told(rt, a, values.len().min(5), &work);
}

fn mad_line(rt: &impl Print, values: &[f64], median: f64, room: usize) {
    let mut work = [9.0f64; 5];
    let a = median::mad_of(values, median, &mut work[0..room.min(5)]);
    told(rt, a, values.len().min(5), &work);
}

// The end of a line: the answer, and the slots that must not have changed.
fn told(rt: &impl Print, a: Result<f64, Refusal>, n: usize, work: &[f64; 5])
    requires { n ≤ 5 }
{
    match a {
        Ok(x) => run_show::float(rt, x),
        Err(refusal) => run_show::refused(rt, refusal),
    }
    run_show::words(rt, b", kept");
    run_show::floats(rt, &work[open_slots(a, n)..]);
    run_show::end(rt);
}

// How many slots of the work slice are left open.
fn open_slots(a: Result<f64, Refusal>, n: usize) -> usize
    ensures { result ≤ n }
{
    if a.is_ok() { n } else { 0 }
}
