// Runs the calls of the crate sections on both sides of each boundary of document 01, and on small curves, and prints the number, the
// sections, the count, the confidence, and each slot that is promised, those that were not lent too. Sorting room is printed past the
// novelty's slots, and whole at a refusal. The file stdout holds what must come out: numbers by document 01, values by the Rust.
//
// The cases stand in tables, one to a line, with bars between the columns: the label, for boundaries the curve, and the numbers that the function
// of that name takes, where (1) is column 1.
#![tactic(auto)]

ghost use Rattle.std.specs.Prelude.{◌≤◌};

use numbers::Refusal;
use sections::Sections;

// What a table runs.
#[derive(Clone, Copy)]
enum Call {
    Boundaries,
    Times,
    Gaps,
}

fn main(rt: HostRuntime) {
    hills(&rt);
    others(&rt);
    values(&rt);
    longest(&rt);
    too_long(&rt);
    time_lists(&rt);
    gaps(&rt);
}

// ---- boundaries

// Curves with up to seven peaks: 5, 7, 5, 9, 7, 5 and 3.
fn hills(rt: &impl Print) {
    table(
        rt,
        Call::Boundaries,
        "hills, at most 10 sections|015h07105q09h070150h30h0|192000|48000|10|26|26
at most 9|015h07105q09h070150h30h0|192000|48000|9|26|26
at most 8|015h07105q09h070150h30h0|192000|48000|8|26|26
at most 7|015h07105q09h070150h30h0|192000|48000|7|26|26
at most 6|015h07105q09h070150h30h0|192000|48000|6|26|26
at most 5|015h07105q09h070150h30h0|192000|48000|5|26|26
at most 4|015h07105q09h070150h30h0|192000|48000|4|26|26
at most 3|015h07105q09h070150h30h0|192000|48000|3|26|26
at most 2|015h07105q09h070150h30h0|192000|48000|2|26|26
at most 1|015h07105q09h070150h30h0|192000|48000|1|26|26
at most 0|015h07105q09h070150h30h0|192000|48000|0|26|26
17 rows|015h07105q09h0701|192000|48000|10|26|26
16 rows|015h07105q09h070|192000|48000|10|26|26
15 rows|015h07105q09h07|192000|48000|10|26|26
2 rows|01|192000|48000|10|26|26
1 rows|0|192000|48000|10|26|26
0 rows||192000|48000|10|26|26
24 rows in 24 slots|015h07105q09h070150h30h0|192000|48000|10|24|24
in 23 slots of rows|015h07105q09h070150h30h0|192000|48000|10|23|24
in 23 slots of work|015h07105q09h070150h30h0|192000|48000|10|24|23
15 rows in 15 slots|015h07105q09h07|192000|48000|10|15|15
in 14 slots of rows|015h07105q09h07|192000|48000|10|14|15
in 14 slots of work|015h07105q09h07|192000|48000|10|15|14
no rows in no slots||192000|48000|10|0|0
length 0 at rate 48000|015h07105q09h070150h30h0|0|48000|3|26|26
length 1 at rate 48000|015h07105q09h070150h30h0|1|48000|3|26|26
length 2147483648 at rate 48000|015h07105q09h070150h30h0|2147483648|48000|3|26|26
length 2147483649 at rate 48000|015h07105q09h070150h30h0|2147483649|48000|3|26|26
length 192000 at rate 0|015h07105q09h070150h30h0|192000|0|3|26|26
length 192000 at rate 1|015h07105q09h070150h30h0|192000|1|3|26|26
length 192000 at rate 192000|015h07105q09h070150h30h0|192000|192000|3|26|26
length 192000 at rate 192001|015h07105q09h070150h30h0|192000|192001|3|26|26
length 1 at rate 1|015h07105q09h070150h30h0|1|1|10|26|26
length 1 at rate 192000|015h07105q09h070150h30h0|1|192000|10|26|26
length 2147483648 at rate 1|015h07105q09h070150h30h0|2147483648|1|10|26|26
length 2147483648 at rate 192000|015h07105q09h070150h30h0|2147483648|192000|10|26|26
length 24000 at rate 48000, gap 8|015h07105q09h070150h30h0|24000|48000|10|26|26
length 0 in 23 slots|015h07105q09h070150h30h0|0|48000|10|23|26\n",
    );
}

// The last two have the median 2 and the threshold 5.
fn others(rt: &impl Print) {
    table(
        rt,
        Call::Boundaries,
        "three thirds, held to 1|00t0000t0000t000|192000|48000|10|26|26
two of three thirds|00t0000t0000t000|192000|48000|3|26|26
the greater of two zeros|mmmmzmmmm0mmmmmm|192000|48000|2|26|26
a flat curve|ffffffffffffffff|192000|48000|10|26|26
a peak at the threshold|0202020205020202|192000|48000|10|26|26
a peak above the threshold|020202020u020202|192000|48000|10|26|26\n",
    );
}

fn values(rt: &impl Print) {
    table(
        rt,
        Call::Boundaries,
        "2^150 and -2^150|000b00000c000000|192000|48000|10|26|26
the next above 2^150|000a000000000000|192000|48000|10|26|26
the next below -2^150|000000000d000000|192000|48000|10|26|26
a nan|000000000n000000|192000|48000|10|26|26
infinity|000i000000000000|192000|48000|10|26|26
-infinity|000000000j000000|192000|48000|10|26|26
a nan in 15 slots|000000000n000000|192000|48000|10|15|26
a nan in 15 rows|000000000n00000|192000|48000|10|26|26\n",
    );
}

// The curve that (1) spells, (2) samples at rate (3), at most (4) sections, the first (5) slots of rows and (6) of work.
fn boundaries(rt: &impl Print, line: &[u8]) {
    let text = run_cases::part(line, b'|', 1);
    let mut curve = [0.0f64; 24];
    run_cases::spell(text, &mut curve);
    boundaries_of(
        rt,
        &curve[0..text.len().min(24)],
        run_cases::column(line, 2) as u64,
        run_cases::column_u32(line, 3),
        run_cases::column(line, 4),
        run_cases::column_within(line, 5, 26),
        run_cases::column_within(line, 6, 26),
    );
}

fn boundaries_of(
    rt: &impl Print,
    novelty: &[f64],
    samples: u64,
    rate: u32,
    most: usize,
    room: usize,
    space: usize,
)
    requires { (room ≤ 26) × (space ≤ 26) }
{
    let mut rows = [777u32; 26];
    let mut work = [9.0f64; 26];
    let a = sections::boundaries(
        novelty,
        samples,
        rate,
        most,
        &mut rows[0..room],
        &mut work[0..space],
    );
    told(rt, a, novelty.len(), &rows, &work);
}

fn told(
    rt: &impl Print,
    a: Result<Sections, Refusal>,
    n: usize,
    rows: &[u32; 26],
    work: &[f64; 26],
) {
    answer(rt, a);
    run_show::words(rt, b", rows");
    run_show::smalls(rt, rows);
    run_show::words(rt, b", kept");
    slots(rt, work, open_slots(a, n), 26);
    run_show::end(rt);
}

// What is printed where no sections are told.
const NO_SECTIONS: Sections = Sections {
    sections: 0,
    count: 0,
    confidence: 0.0,
};

fn answer(rt: &impl Print, a: Result<Sections, Refusal>) {
    run_show::outcome(rt, &a);
    let s = a.unwrap_or(NO_SECTIONS);
    run_show::count(rt, s.sections);
    run_show::count(rt, s.count);
    run_show::float(rt, s.confidence);
}

// How many slots of the work slice are left open.
fn open_slots(a: Result<Sections, Refusal>, n: usize) -> usize {
    if a.is_ok() { n } else { 0 }
}

// The slots from `from` to `to`, lent or not.
fn slots(rt: &impl Print, xs: &[f64], from: usize, to: usize) {
    let end = to.min(xs.len());
    run_show::floats(rt, &xs[from.min(end)..end]);
}

// 50,000 rows, with one peak.
fn longest(rt: &impl Print) {
    let mut curve = [0.0f64; 50000];
    set(&mut curve, 49997, 5.0);
    let mut rows = [777u32; 50001];
    let mut work = [9.0f64; 50001];
    run_show::words(rt, b"50000 rows");
    answer(
        rt,
        sections::boundaries(&curve, 192000, 48000, 10, &mut rows, &mut work),
    );
    first_two(rt, &rows);
}

fn first_two(rt: &impl Print, rows: &[u32; 50001]) {
    run_show::small(rt, rows[0]);
    run_show::small(rt, rows[1]);
    run_show::end(rt);
}

fn set(curve: &mut [f64], row: usize, x: f64) {
    if row < curve.len() {
        curve[row] = x;
    }
}

fn too_long(rt: &impl Print) {
    let curve = [0.0f64; 50001];
    let mut rows = [777u32; 50001];
    let mut work = [9.0f64; 50001];
    run_show::words(rt, b"50001 rows");
    answer(
        rt,
        sections::boundaries(&curve, 192000, 48000, 10, &mut rows, &mut work),
    );
    run_show::end(rt);
}

// ---- times

fn time_lists(rt: &impl Print) {
    table(
        rt,
        Call::Times,
        "times|0|4|24000|48000|4
times in 6 slots|0|4|24000|48000|6
times in 3 slots|0|4|24000|48000|3
a row of 50000|4|6|24000|48000|4
a row of 50000 in 1 slot|4|6|24000|48000|1
no rows in no slots|0|0|24000|48000|0
times at length 0, rate 48000|6|8|0|48000|2
times at length 1, rate 192000|6|8|1|192000|2
times at length 2147483648, rate 1|6|8|2147483648|1|2
times at length 2147483649, rate 1|6|8|2147483649|1|2
times at length 1, rate 0|6|8|1|0|2
times at length 1, rate 1|6|8|1|1|2
times at length 1, rate 192001|6|8|1|192001|2
times at length 2147483648, rate 192000|6|8|2147483648|192000|2\n",
    );
}

// The rows from (1) to (2), (3) samples at rate (4), into the first (5) of six slots.
fn times(rt: &impl Print, line: &[u8]) {
    let end = run_cases::column_within(line, 2, 8);
    times_of(
        rt,
        run_cases::column_within(line, 1, end),
        end,
        run_cases::column(line, 3) as u64,
        run_cases::column_u32(line, 4),
        run_cases::column_within(line, 5, 6),
    );
}

fn times_of(rt: &impl Print, from: usize, end: usize, samples: u64, rate: u32, room: usize)
    requires { (from ≤ end) × (end ≤ 8) × (room ≤ 6) }
{
    let rows = [0u32, 3, 49999, 1, 0, 50000, 1, 49999];
    let mut ms = [9.0f64; 6];
    let answer = sections::boundary_times(&rows[from..end], samples, rate, &mut ms[0..room]);
    run_show::outcome(rt, &answer);
    six(rt, &ms);
}

fn six(rt: &impl Print, ms: &[f64; 6]) {
    run_show::words(rt, b",");
    run_show::floats(rt, ms);
    run_show::end(rt);
}

// ---- inner calls

fn gaps(rt: &impl Print) {
    table(
        rt,
        Call::Gaps,
        "gap 1 1|1|1
gap 1 192000|1|192000
gap 2147483648 1|2147483648|1
gap 2147483648 192000|2147483648|192000
gap 24000 48000|24000|48000
gap 192000 48000|192000|48000
gap 191999 48000|191999|48000
gap 192001 48000|192001|48000
gap 7 44100|7|44100
gap 11025 44100|11025|44100\n",
    );
}

// The gap of (1) samples at rate (2).
fn gap(rt: &impl Print, line: &[u8]) {
    let samples = run_cases::column(line, 1) as u64;
    let rate = run_cases::column_u32(line, 2);
    run_show::count(rt, sections::section_gap(samples, rate));
    run_show::float(rt, sections::frame_ms(samples, rate));
    run_show::end(rt);
}

// ---- the tables

fn table(rt: &impl Print, call: Call, cases: &str) {
    for line in cases.lines() {
        run(rt, call, line.as_bytes());
    }
}

fn run(rt: &impl Print, call: Call, line: &[u8]) {
    run_show::words(rt, run_cases::part(line, b'|', 0));
    match call {
        Call::Boundaries => boundaries(rt, line),
        Call::Times => times(rt, line),
        Call::Gaps => gap(rt, line),
    }
}
