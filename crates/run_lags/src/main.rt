// Runs the calls of the crates lags, lag_sums and lag_curves on both sides of each boundary and prints what they answer. The file stdout
// holds what the Rust's formulas give, with document 01's refusals before them; the curves' prior is that of libm 0.2.1.
//
// The cases of the first two stand in tables, one to a line, with bars between the columns: the label, then what the function of that name takes, where
// (1) is column 1.
#![tactic(auto)]

use lags::LagRange;
use options::TempoOpts;

// What a table runs.
#[derive(Clone, Copy)]
enum Call {
    Defaults,
    Range,
    Apart,
    Folds,
}

fn main(rt: HostRuntime) {
    rates(&rt);
    bounds(&rt);
    far_bounds(&rt);
    no_bounds(&rt);
    pairs(&rt);
    beat(&rt);
    long_beat(&rt);
}

fn table(rt: &impl Print, call: Call, cases: &str) {
    for line in cases.lines() {
        run(rt, call, line.as_bytes());
    }
}

fn run(rt: &impl Print, call: Call, line: &[u8]) {
    run_show::words(rt, run_cases::part(line, b'|', 0));
    match call {
        Call::Defaults => range_of(rt, run_cases::column_u32(line, 1), TempoOpts::new()),
        Call::Range => range(rt, line),
        Call::Apart => apart(rt, run_cases::column(line, 1), run_cases::column(line, 2)),
        Call::Folds => folds(rt, run_cases::column(line, 1), run_cases::column(line, 2)),
    }
}

// ---- ranges

fn rates(rt: &impl Print) {
    table(
        rt,
        Call::Defaults,
        "rate 0:|0
rate 1:|1
rate 192000:|192000
rate 192001:|192001
rate 4294967295:|4294967295
rate 48000:|48000
rate 44100:|44100\n",
    );
}

fn bounds(rt: &impl Print) {
    run_show::words(rt, b"200 to 100:");
    range_of(
        rt,
        48000,
        TempoOpts::new().with_min_bpm(200.0).with_max_bpm(100.0),
    );
    table(
        rt,
        Call::Range,
        "0 to 0:|48000|0|0
-0 to 0:|48000|z|0
-5 to -1:|48000|-5|-1
300 to -300:|48000|300|-300
1 to 2:|192000|1|2
1 to 1:|192000|1|1\n",
    );
}

fn far_bounds(rt: &impl Print) {
    let fine = 1427247692705959881058285969449495136382746624.0;
    let big = fine * fine * fine * fine;
    between(rt, b"100 to 100.5:", 48000, 100.0, 100.5);
    between(rt, b"2^600 to 2^600:", 48000, big, big);
    between(rt, b"-2^600 to 2^600:", 192000, -big, big);
    between(
        rt,
        b"2^53 to 2^53:",
        48000,
        9007199254740992.0,
        9007199254740992.0,
    );
    between(rt, b"2^-600 to 2^-600:", 48000, 1.0 / big, 1.0 / big);
}

// Open bounds: no limit above, none below, and those that are no numbers.
fn no_bounds(rt: &impl Print) {
    table(
        rt,
        Call::Range,
        "NaN to 300:|48000|n|300
30 to NaN:|48000|30|n
30 to infinity:|48000|30|i
-infinity to 300:|48000|j|300
infinity to infinity:|48000|i|i
infinity to 30:|48000|i|30
-infinity to infinity:|48000|j|i
-infinity to -infinity:|48000|j|j
NaN to NaN:|48000|n|n
rate 0, NaN to NaN:|0|n|n\n",
    );
}

// At rate (1), from (2) up to (3) beats a minute.
fn range(rt: &impl Print, line: &[u8]) {
    range_of(
        rt,
        run_cases::column_u32(line, 1),
        TempoOpts::between(
            bound(run_cases::part(line, b'|', 2)),
            bound(run_cases::part(line, b'|', 3)),
        ),
    );
}

// A bound: a letter's or a digit's value, or a whole number, which may have a sign.
fn bound(text: &[u8]) -> f64 {
    if text.len() == 0 {
        return 0.0;
    }
    if text.len() == 1 {
        return run_cases::value(text[0]);
    }
    let n = (run_cases::number(text).min(4294967295) as u32) as f64;
    if text[0] == b'-' {
        return -n;
    }
    n
}

fn between(rt: &impl Print, label: &[u8], rate: u32, min_bpm: f64, max_bpm: f64) {
    run_show::words(rt, label);
    range_of(rt, rate, TempoOpts::between(min_bpm, max_bpm));
}

// What is printed where no lags are named.
const NO_LAGS: LagRange = LagRange {
    min_lag: 0,
    max_lag: 0,
};

fn range_of(rt: &impl Print, rate: u32, opts: TempoOpts) {
    let answer = lags::lag_range(rate, opts);
    run_show::outcome(rt, &answer);
    let r = answer.unwrap_or(NO_LAGS);
    run_show::count(rt, r.min_lag);
    run_show::count(rt, r.max_lag);
    run_show::end(rt);
}

// ---- pairs

fn pairs(rt: &impl Print) {
    table(
        rt,
        Call::Apart,
        "apart 22 20|22|20
apart 23 20|23|20
apart 20 18|20|18
apart 18 20|18|20
apart 17 20|17|20
apart 20 20|20|20
apart 1 2|1|2
apart 45000 40909|45000|40909
apart 44999 40909|44999|40909
apart 40500 45000|40500|45000
apart 40499 45000|40499|45000\n",
    );
    table(
        rt,
        Call::Folds,
        "folds 40 38|40|38
folds 40 42|40|42
folds 40 19|40|19
folds 40 37|40|37
folds 40 43|40|43
folds 40 10|40|10
folds 40 21|40|21
folds 40 80|40|80
folds 40 84|40|84
folds 40 85|40|85
folds 40 160|40|160
folds 40 9|40|9
folds 1 1|1|1
folds 0 1|0|1
folds 0 0|0|0
folds 45000 11250|45000|11250\n",
    );
}

fn answer(rt: &impl Print, yes: bool) {
    if yes {
        run_show::words(rt, b" yes");
    } else {
        run_show::words(rt, b" no");
    }
}

fn apart(rt: &impl Print, lag: usize, accepted: usize) {
    answer(rt, lags::pairs::lags_apart(lag, accepted));
    run_show::end(rt);
}

fn fold(rt: &impl Print, whole: usize, lag: usize, by: f64) {
    answer(rt, lags::pairs::fold_fits(whole, lag, by));
}

// Whether each fold of a window's lag fits the whole lag; one that does is enough for the window to agree.
fn folds(rt: &impl Print, whole: usize, lag: usize) {
    fold(rt, whole, lag, 0.25);
    fold(rt, whole, lag, 0.5);
    fold(rt, whole, lag, 1.0);
    fold(rt, whole, lag, 2.0);
    fold(rt, whole, lag, 4.0);
    run_show::end(rt);
}

// ---- curves

fn sums(rt: &impl Print, mean: f64, energy: f64) {
    run_show::words(rt, b"mean");
    run_show::float(rt, mean);
    run_show::words(rt, b"\nenergy");
    run_show::float(rt, energy);
}

fn curve(rt: &impl Print, name: &[u8], xs: &[f64]) {
    run_show::words(rt, name);
    run_show::floats(rt, xs);
}

// Lags 3 to 20: twice eight side by side, and two more. The last two slots lent are not written.
fn curves(rt: &impl Print, envelope: &[f64; 45]) {
    let mut clarity = [9.0f64; 20];
    let mut weight = [9.0f64; 20];
    let mean = lists::mean_of(envelope);
    let ac0 = lag_sums::energy_of(envelope, mean);
    sums(rt, mean, ac0);
    lag_curves::fill_lag_curves(envelope, mean, ac0, 3000, 3, 20, &mut clarity, &mut weight);
    curve(rt, b"\nclarity", &clarity);
    curve(rt, b"\nweight", &weight);
    run_show::end(rt);
}

const BEAT: [f64; 45] = [
    0.1, 0.0, 0.0, 5.0, 0.0, 0.0, 1.3, 0.0, 0.0, 5.0, 0.0, -2.75, 0.0, 0.0, 0.0, 5.0, 0.0, 0.0,
    1.3, 0.0, 0.0, 5.0, 0.0, 0.0, 0.0, 0.0, 0.0, 5.0, 0.0, 0.0, 1.3, 0.0, 0.0, 5.0, 0.0, 0.0, 0.0,
    0.0, 0.0, 5.0, 0.0, 0.0, 1.3, 0.0, 7.7,
];

fn beat(rt: &impl Print) {
    let e = BEAT;
    curves(rt, &e);
}

// Lags 20 to 60: thirty-two in blocks, eight side by side, and one more. The last slot lent is not written.
fn long_curves(rt: &impl Print, envelope: &[f64; 400]) {
    let mut clarity = [9.0f64; 42];
    let mut weight = [9.0f64; 42];
    let mut priors = [9.0f64; 42];
    let mean = lists::mean_of(envelope);
    let ac0 = lag_sums::energy_of(envelope, mean);
    sums(rt, mean, ac0);
    lag_curves::fill_clarity(envelope, mean, ac0, 20, 60, &mut clarity);
    curve(rt, b"\nclarity", &clarity);
    lag_curves::fill_priors(6000, 20, 60, &mut priors);
    lag_curves::weigh(&clarity, &priors, 41, &mut weight);
    curve(rt, b"\nweight", &weight);
    run_show::end(rt);
}

fn long_beat(rt: &impl Print) {
    let mut e = [0.25f64; 400];
    e[7] = 6.5;
    e[19] = 2.1;
    e[31] = 6.5;
    e[55] = 6.5;
    e[67] = 2.1;
    e[80] = 6.5;
    e[103] = 6.5;
    e[115] = 2.1;
    e[127] = 6.5;
    e[151] = 6.5;
    e[163] = 2.1;
    e[176] = 6.5;
    e[199] = 6.5;
    e[223] = 6.5;
    e[248] = 6.5;
    e[271] = 6.5;
    e[295] = 6.5;
    e[319] = 6.5;
    e[343] = 6.5;
    e[368] = 6.5;
    e[391] = 6.5;
    long_curves(rt, &e);
}
