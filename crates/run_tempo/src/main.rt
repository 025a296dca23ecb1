// Runs `tempo::estimate` on both sides of each boundary and prints what it answers; the file stdout holds what must come out.
//
// The cases stand in tables, one to a line, with bars between the columns: the label, then what `run` takes, where (1) is column 1.
#![tactic(auto)]

ghost use Rattle.std.specs.Prelude.{◌≤◌, length};

use options::TempoOpts;
use tempo::{Candidate, Refusal, Tempo, TempoEstimate};

fn tempo_of(rt: &impl Print, t: Tempo) {
    match t {
        Tempo::None => run_show::words(rt, b" none"),
        Tempo::Found { bpm, clarity } => {
            run_show::float(rt, bpm);
            run_show::float(rt, clarity);
        }
    }
}

fn candidate(rt: &impl Print, c: Candidate) {
    run_show::count(rt, c.lag);
    run_show::float(rt, c.salience);
}

// What is printed where nothing is estimated.
const NO_ESTIMATE: TempoEstimate = TempoEstimate {
    tempo: Tempo::None,
    candidates: [Candidate {
        lag: 0,
        salience: 0.0,
    }; 3],
    count: 0,
};

fn answer(rt: &impl Print, a: Result<TempoEstimate, Refusal>) {
    run_show::outcome(rt, &a);
    let e = a.unwrap_or(NO_ESTIMATE);
    tempo_of(rt, e.tempo);
    run_show::count(rt, e.count);
    for &c in &e.candidates {
        candidate(rt, c);
    }
}

fn main(rt: HostRuntime) {
    lengths(&rt);
    contents(&rt);
    bounds(&rt);
    rooms(&rt);
    envelopes(&rt);
    track(&rt);
}

// ---- the cases

// Rate 512, defaults: lags 1 to 4, and room for five. No slots, two, three, max_lag + 1, max_lag + 2 and eight; then one onset and none.
fn lengths(rt: &impl Print) {
    table(
        rt,
        "slots, onsets 0 2:|03010301|0|2|512|0|5|5|5|5
slots, onsets 2 2:|03010301|2|2|512|0|5|5|5|5
slots, onsets 3 2:|03010301|3|2|512|0|5|5|5|5
slots, onsets 5 2:|03010301|5|2|512|0|5|5|5|5
slots, onsets 6 2:|03010301|6|2|512|0|5|5|5|5
slots, onsets 8 2:|03010301|8|2|512|0|5|5|5|5
slots, onsets 8 1:|03010301|8|1|512|0|5|5|5|5
slots, onsets 8 0:|03010301|8|0|512|0|5|5|5|5\n",
    );
}

fn contents(rt: &impl Print) {
    table(
        rt,
        "envelope 0:|ffffffff|8|2|512|0|5|5|5|5|constant
envelope 1:|00000000|8|2|512|0|5|5|5|5|all zero
envelope 2:|z3z103z1|8|2|512|0|5|5|5|5|signed zeros
envelope 3:|00050000|8|2|512|0|5|5|5|5|one pulse, no weight above 0
envelope 4:||0|2|512|0|5|5|5|5|energy above 2^-52
envelope 5:||1|2|512|0|5|5|5|5|energy below 2^-52
envelope 6:||2|2|512|0|5|5|5|5|energy of 2^-52
envelope 7:||3|2|512|0|5|5|5|5|energy just above 2^-52
envelope 8:||4|2|512|0|5|5|5|5|a clarity of -0
envelope 9:||5|2|512|0|5|5|5|5|negative values
envelope 10:|b00b0000|8|2|512|0|5|5|5|5|2^150
envelope 11:|c00c0000|8|2|512|0|5|5|5|5|-2^150
envelope 12:|0301030n|8|2|512|0|5|5|5|5|a NaN
envelope 13:|i3010301|8|2|512|0|5|5|5|5|an infinity
envelope 14:|030j0301|8|2|512|0|5|5|5|5|minus infinity
envelope 15:|0301030a|8|2|512|0|5|5|5|5|the next above 2^150
a NaN, one onset:|0301030n|8|1|512|0|5|5|5|5
a NaN alone:|n|1|2|512|0|5|5|5|5\n",
    );
}

fn bounds(rt: &impl Print) {
    table(
        rt,
        "bounds 0:|03010301|8|2|0|0|5|5|5|5|rate 0
bounds 1:|03010301|8|2|1|0|5|5|5|5|rate 1, lags 1 to 2
bounds 2:|03010301|4|2|1|0|5|5|5|5|rate 1, four slots
bounds 3:|03010301|3|2|1|0|5|5|5|5|rate 1, three slots
bounds 4:|03010301|8|2|192000|1|5|5|5|5|rate 192,000, lags 150 to 151
bounds 5:|03010301|8|2|192001|1|5|5|5|5|rate 192,001
bounds 6:|03010301|8|2|4294967295|1|5|5|5|5|rate 4,294,967,295
bounds 7:|03010301|8|2|512|2|5|5|5|5|upper bound infinite
bounds 8:|03010301|8|2|512|3|5|5|5|5|lower bound minus infinite
bounds 9:|03010301|8|2|512|4|5|5|5|5|lower bound a NaN
bounds 10:|03010301|8|2|512|5|5|5|5|5|upper bound a NaN
bounds 11:|03010301|8|2|512|6|5|5|5|5|reversed
bounds 12:|03010301|8|2|512|7|5|5|5|5|the lower bound that makes five lags
bounds 13:|03010301|8|2|512|8|5|5|5|5|the lower bound that makes six lags\n",
    );
}

// Room for so many lags in each slice; the slots not lent are shown too.
fn rooms(rt: &impl Print) {
    table(
        rt,
        "room 0:|03010301|8|2|512|0|4|4|4|5|just enough room
room 1:|03010301|8|2|512|0|3|4|4|5|clarity one short
room 2:|03010301|8|2|512|0|4|3|4|5|weight one short
room 3:|03010301|8|2|512|0|4|4|3|5|work one short
room 4:|03010301|0|2|512|0|4|4|3|5|one short for no slots
room 5:|03010301|8|2|0|0|3|4|4|5|one short and rate 0
one short and a NaN:|n3010301|8|2|512|0|3|4|4|5\n",
    );
}

// Rate 2,560, defaults: lags 2 to 20, and room for one more.
fn envelopes(rt: &impl Print) {
    table(
        rt,
        "period 5:|0400004000040000400004000040000400004000|60|2|2560|0|20|20|20|20
periods 6 and 4:|305030008000305030008000305030008000305030008000|60|2|2560|0|20|20|20|20
period 7 and noise:|101800201262000116002102602220281000207102021|60|2|2560|0|20|20|20|20
noise:|8219935181909378657975432319487574911|60|2|2560|0|20|20|20|20
noise, max_lag + 2 slots:|8625276018955597971147|60|2|2560|0|20|20|20|20
periods 3 and 8:|200207200200270200200900200207200200270200200900200207200200|60|2|2560|0|20|20|20|20
a ramp:|0123456789:;<=>?@ABCDEFGHIJKLM|60|2|2560|0|20|20|20|20
a late burst:|000000000000000000000000000000090090090090|60|2|2560|0|20|20|20|20
one bar:|801111101180100100119001|60|2|2560|0|20|20|20|20\n",
    );
}

// 2^-27 and its negative, twice: the sum of squares about the mean is 2^-52 itself. One value a little larger, and it is above.
const X: f64 = 0.000000007450580596923828125;

const Y: f64 = 0.00000000745059;

// 2^150, and 2^-1050.
const TOP: f64 = 1427247692705959881058285969449495136382746624.0;

const LEAST: f64 = 8.289046e-317;

// Envelopes 4 to 9. In envelope 8 the one product at lag 2 is -2^-900, and the clarity rounds to -0, which holding to a range keeps.
const ENVELOPES: [[f64; 8]; 6] = [
    [
        0.0, 0.0000001, 0.0, 0.0000001, 0.0, 0.0000001, 0.0, 0.0000001,
    ],
    [
        0.0, 0.00000001, 0.0, 0.00000001, 0.0, 0.00000001, 0.0, 0.00000001,
    ],
    [X, -X, X, -X, 0.0, 0.0, 0.0, 0.0],
    [X, -X, X, -Y, 0.0, 0.0, 0.0, 0.0],
    [TOP, 0.0, -LEAST, 0.0, 0.0, 0.0, 0.0, -TOP],
    [0.0, -3.0, 0.0, -1.0, 0.0, -3.0, 0.0, -1.0],
];

// ---- the tables

fn table(rt: &impl Print, cases: &str) {
    for line in cases.lines() {
        run(rt, line.as_bytes());
    }
}

// The envelope that (1) spells, at most its first (2) slots, or envelope (2) of the constants where (1) is empty; and what `estimate` takes.
fn run(rt: &impl Print, line: &[u8]) {
    let text = run_cases::part(line, b'|', 1);
    run_show::words(rt, run_cases::part(line, b'|', 0));
    if text.len() == 0 {
        return of_eight(rt, ENVELOPES[run_cases::column_within(line, 2, 5)], line);
    }
    let mut e = [0.0f64; 60];
    run_cases::spell(text, &mut e);
    let n = text.len().min(60);
    estimate(rt, &e[0..run_cases::column_within(line, 2, n)], line);
}

fn of_eight(rt: &impl Print, envelope: [f64; 8], line: &[u8]) {
    estimate(rt, &envelope, line);
}

// (3) onsets, at rate (4), the bounds (5) of the tempo, and so many slots lent: (6) of clarity, (7) of weight, (8) of work; (9) of each are shown.
fn estimate(rt: &impl Print, envelope: &[f64], line: &[u8]) {
    let mut clarity = [9.0f64; 20];
    let mut weight = [8.0f64; 20];
    let mut work = [7.0f64; 20];
    answer(
        rt,
        tempo::estimate(
            envelope,
            run_cases::column(line, 3),
            run_cases::column_u32(line, 4),
            bounds_of(run_cases::column(line, 5)),
            &mut clarity[0..run_cases::column_within(line, 6, 20)],
            &mut weight[0..run_cases::column_within(line, 7, 20)],
            &mut work[0..run_cases::column_within(line, 8, 20)],
        ),
    );
    left(
        rt,
        &clarity,
        &weight,
        &work,
        run_cases::column_within(line, 9, 20),
    );
}

// The first n slots of each lent slice afterwards, lent or not.
fn left(rt: &impl Print, clarity: &[f64; 20], weight: &[f64; 20], work: &[f64; 20], n: usize)
    requires { n ≤ 20 }
{
    first(rt, b", clarity", clarity, n);
    first(rt, b", weight", weight, n);
    first(rt, b", work", work, n);
    run_show::end(rt);
}

fn first(rt: &impl Print, name: &[u8], xs: &[f64], n: usize)
    requires { n ≤ length xs.now }
{
    run_show::words(rt, name);
    run_show::floats(rt, &xs[0..n]);
}

// The bounds of a case: 0 are the defaults.
fn bounds_of(k: usize) -> TempoOpts {
    match k {
        1 => TempoOpts::between(299.0, 300.0),
        2 => TempoOpts::between(30.0, 1.0 / 0.0),
        3 => TempoOpts::between(-1.0 / 0.0, 300.0),
        4 => TempoOpts::between(0.0 / 0.0, 300.0),
        5 => TempoOpts::between(30.0, 0.0 / 0.0),
        6 => TempoOpts::between(300.0, 30.0),
        7 => TempoOpts::new().with_min_bpm(24.0),
        8 => TempoOpts::new().with_min_bpm(20.0),
        _ => TempoOpts::new(),
    }
}

// ---- a longer track

fn track(rt: &impl Print) {
    let mut e = [0.0f64; 400];
    e[10] = 1.0;
    e[104] = 1.0;
    e[198] = 1.0;
    e[292] = 1.0;
    e[386] = 1.0;
    of_track(rt, b"376 slots:", &e[0..376]);
    of_track(rt, b"377 slots:", &e[0..377]);
    of_track(rt, b"400 slots:", &e);
}

// The default bounds at rate 48,000: lags 38 to 375.
fn of_track(rt: &impl Print, label: &[u8], envelope: &[f64]) {
    let mut clarity = [9.0f64; 338];
    let mut weight = [8.0f64; 338];
    let mut work = [7.0f64; 338];
    run_show::words(rt, label);
    answer(
        rt,
        tempo::estimate(
            envelope,
            2,
            48000,
            TempoOpts::new(),
            &mut clarity,
            &mut weight,
            &mut work,
        ),
    );
    slot(rt, b", slot 0", clarity[0], weight[0]);
    slot(rt, b", slot 56", clarity[56], weight[56]);
    slot(rt, b", slot 337", clarity[337], weight[337]);
    run_show::end(rt);
}

fn slot(rt: &impl Print, name: &[u8], clarity: f64, weight: f64) {
    run_show::words(rt, name);
    run_show::float(rt, clarity);
    run_show::float(rt, weight);
}
