// Runs `stability::stability_of` on both sides of each boundary and prints what it answers; the file stdout holds what must come out.
//
// The cases stand in tables, one to a line, with bars between the columns: the label, then the numbers that `run` takes, where (1) is column 1.
#![tactic(auto)]

ghost use Rattle.std.specs.Prelude.{◌≤◌};

use numbers::Refusal;
use options::TempoOpts;
use stability::Stability;

fn main(rt: HostRuntime) {
    windows(&rt);
    contents(&rt);
    bounds(&rt);
    values(&rt);
    rooms(&rt);
    envelopes(&rt);
}

// ---- the cases

// rate 512, defaults: lags 1 to 4
fn windows(rt: &impl Print) {
    table(
        rt,
        b"030103010301031030030030030030",
        PAST_LAGS,
        "no slots:|0|0|512|0|4|5|5|5
eleven slots, one window:|0|11|512|0|4|5|5|5
twelve slots, two windows:|0|12|512|0|4|5|5|5
seventeen slots, two windows of eight:|0|17|512|0|4|5|5|5
eighteen slots, three windows:|0|18|512|0|4|5|5|5
23 slots, three windows of seven:|0|23|512|0|4|5|5|5
24 slots, four windows:|0|24|512|0|4|5|5|5
thirty slots, four windows of seven:|0|30|512|0|4|5|5|5
whole lag 3:|0|30|512|0|3|5|5|5
whole lag 2:|0|30|512|0|2|5|5|5
whole lag 1:|0|30|512|0|1|5|5|5
whole lag 0:|0|30|512|0|0|5|5|5
whole lag 6:|0|30|512|0|6|5|5|5
whole lag 45,000:|0|30|512|0|45000|5|5|5\n",
    );
}

fn contents(rt: &impl Print) {
    table(
        rt,
        b"000000000000000000000000ffffffffffffffffffffffff010101010101000000000000z1z1z1zzzzzzzzzzzzz1z1z1",
        PAST_LAGS,
        "all zero:|0|24|512|0|2|5|5|5
constant:|24|48|512|0|2|5|5|5
two windows flat:|48|72|512|0|2|5|5|5
two windows of -0:|72|96|512|0|4|5|5|5\n",
    );
}

fn bounds(rt: &impl Print) {
    table(
        rt,
        b"030103010301",
        ALL_FIVE,
        "whole lag 45,001:|0|12|512|0|45001|5|5|5
whole lag 18,446,744,073,709,551,615:|0|12|512|0|18446744073709551615|5|5|5
rate 0:|0|12|0|0|4|5|5|5
rate 192,001:|0|12|192001|1|4|5|5|5
rate 192,000, lags 150 to 151, no windows:|0|12|192000|1|4|5|5|5
upper bound infinite:|0|12|512|2|4|5|5|5
lower bound a NaN:|0|12|512|3|4|5|5|5\n",
    );
}

fn values(rt: &impl Print) {
    table(
        rt,
        b"03010301030nj3010301030103010301030a",
        ALL_FIVE,
        "a NaN:|0|12|512|0|4|5|5|5
a NaN, whole lag 0:|0|12|512|0|0|5|5|5
a NaN alone:|11|12|512|0|4|5|5|5
minus infinity:|12|24|512|0|4|5|5|5
the next above 2^150:|24|36|512|0|4|5|5|5
too little room and a NaN:|0|12|512|0|4|3|3|3
too little room and whole lag 45,001:|0|12|512|0|45001|3|3|3\n",
    );
}

fn rooms(rt: &impl Print) {
    table(
        rt,
        b"030103010301",
        NOTHING,
        "just enough room:|0|12|512|0|4|4|4|4
clarity one short:|0|12|512|0|4|3|4|4
weight one short:|0|12|512|0|4|4|3|4
work one short:|0|12|512|0|4|4|4|3
work one short for no slots:|0|0|512|0|4|4|4|3\n",
    );
}

// rate 2,560, defaults: lags 2 to 20
fn envelopes(rt: &impl Print) {
    table(
        rt,
        b"17100160110601106000060171001700117011070001611600000111160110110106006011001601101160110007",
        NOTHING,
        "periods 5, 5, 10 and 7, whole lag 5:|0|92|2560|0|5|19|19|19
periods 5, 5, 10 and 7, whole lag 10:|0|92|2560|0|10|19|19|19
periods 5, 5, 10 and 7, whole lag 20:|0|92|2560|0|20|19|19|19
periods 5, 5, 10 and 7, whole lag 3:|0|92|2560|0|3|19|19|19
periods 5, 5, 10 and 7, whole lag 2:|0|92|2560|0|2|19|19|19
periods 5, 5, 10 and 7, whole lag 7:|0|92|2560|0|7|19|19|19
periods 5, 5, 10 and 7, whole lag 14:|0|92|2560|0|14|19|19|19
periods 5, 5, 10 and 7, whole lag 4:|0|92|2560|0|4|19|19|19\n",
    );
    table(
        rt,
        b"0070000000700000007000007000000000000000700000700070007000700070000070000000070000000070",
        NOTHING,
        "periods 8, 16, 4 and 9, whole lag 8:|0|88|2560|0|8|19|19|19
periods 8, 16, 4 and 9, whole lag 16:|0|88|2560|0|16|19|19|19
periods 8, 16, 4 and 9, whole lag 2:|0|88|2560|0|2|19|19|19
periods 8, 16, 4 and 9, whole lag 4:|0|88|2560|0|4|19|19|19
periods 8, 16, 4 and 9, whole lag 9:|0|88|2560|0|9|19|19|19
periods 8, 16, 4 and 9, whole lag 18:|0|88|2560|0|18|19|19|19
periods 8, 16, 4 and 9, whole lag 17:|0|88|2560|0|17|19|19|19
periods 8, 16, 4 and 9, whole lag 19:|0|88|2560|0|19|19|19|19
periods 8, 16, 4 and 9, whole lag 32:|0|88|2560|0|32|19|19|19\n",
    );
    table(
        rt,
        b"7850255171607909669091111465697778188049170317974054293825773564363363953227501421774366875975104904",
        NOTHING,
        "noise, whole lag 5:|0|100|2560|0|5|19|19|19
noise, whole lag 10:|0|100|2560|0|10|19|19|19
noise, whole lag 11:|0|100|2560|0|11|19|19|19
noise, whole lag 12:|0|100|2560|0|12|19|19|19
noise, whole lag 13:|0|100|2560|0|13|19|19|19\n",
    );
}

// ---- the tables

// What a table shows of the lent slices afterwards: slots from here to the fifth.
const ALL_FIVE: usize = 0;

const PAST_LAGS: usize = 4;

const NOTHING: usize = 5;

fn table(rt: &impl Print, text: &[u8], shown: usize, cases: &str) {
    let mut envelope = [0.0f64; 100];
    run_cases::spell(text, &mut envelope);
    each(rt, &envelope, shown, cases);
}

fn each(rt: &impl Print, envelope: &[f64], shown: usize, cases: &str) {
    for line in cases.lines() {
        run(rt, envelope, shown, line.as_bytes());
    }
}

// The slots from (1) to (2) of the envelope, at rate (3), the bounds (4) of the tempo, the whole lag (5), and so many slots lent: (6) of
// clarity, (7) of weight, (8) of work.
fn run(rt: &impl Print, envelope: &[f64], shown: usize, line: &[u8]) {
    run_show::words(rt, run_cases::part(line, b'|', 0));
    let end = run_cases::column_within(line, 2, envelope.len());
    stability(
        rt,
        &envelope[run_cases::column_within(line, 1, end)..end],
        run_cases::column_u32(line, 3),
        bounds_of(run_cases::column(line, 4)),
        run_cases::column(line, 5),
        run_cases::column_within(line, 6, 19),
        run_cases::column_within(line, 7, 19),
        run_cases::column_within(line, 8, 19),
        shown,
    );
}

fn stability(
    rt: &impl Print,
    envelope: &[f64],
    rate: u32,
    opts: TempoOpts,
    whole_lag: usize,
    c: usize,
    w: usize,
    k: usize,
    shown: usize,
)
    requires { (c ≤ 19) × (w ≤ 19) × (k ≤ 19) }
{
    let mut clarity = [9.0f64; 19];
    let mut weight = [8.0f64; 19];
    let mut work = [7.0f64; 19];
    answer(
        rt,
        stability::stability_of(
            envelope,
            rate,
            opts,
            whole_lag,
            &mut clarity[0..c],
            &mut weight[0..w],
            &mut work[0..k],
        ),
    );
    left(rt, &clarity, &weight, &work, shown);
}

// The bounds of a case: 0 are the defaults.
fn bounds_of(k: usize) -> TempoOpts {
    match k {
        1 => TempoOpts::between(299.0, 300.0),
        2 => TempoOpts::between(30.0, 1.0 / 0.0),
        3 => TempoOpts::between(0.0 / 0.0, 300.0),
        _ => TempoOpts::new(),
    }
}

// The slots of a lent slice that a table shows.
fn slots(rt: &impl Print, name: &[u8], slots: &[f64], shown: usize) {
    if shown == ALL_FIVE {
        run_show::words(rt, name);
    }
    let end = slots.len().min(5);
    run_show::floats(rt, &slots[shown.min(end)..end]);
}

fn left(rt: &impl Print, clarity: &[f64; 19], weight: &[f64; 19], work: &[f64; 19], shown: usize) {
    if shown == PAST_LAGS {
        run_show::words(rt, b", past the lags");
    }
    slots(rt, b", clarity", clarity, shown);
    slots(rt, b", weight", weight, shown);
    slots(rt, b", work", work, shown);
    run_show::end(rt);
}

fn stability_is(rt: &impl Print, s: Stability) {
    match s {
        Stability::None => run_show::words(rt, b" none"),
        Stability::Share {
            fraction,
            agreeing,
            windows,
        } => {
            run_show::float(rt, fraction);
            run_show::count(rt, agreeing);
            run_show::count(rt, windows);
        }
    }
}

fn answer(rt: &impl Print, a: Result<Stability, Refusal>) {
    run_show::outcome(rt, &a);
    stability_is(rt, a.unwrap_or(Stability::None));
}
