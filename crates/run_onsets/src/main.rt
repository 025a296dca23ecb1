// Runs each call of the crates flux, threshold and onsets on both sides of each boundary of document 01, but for a curve of 1,048,577 slots, which no stack
// holds: that is proved only. Small inputs too. Prints the number, the count and each slot that is promised, those that were not lent
// too. The file stdout holds what must come out: numbers by document 01, values by the Rust.
//
// The cases stand in tables, one to a line, with bars between the columns: the label, then the numbers that the function of that name takes, where (1) is
// column 1.
#![tactic(auto)]

ghost use Rattle.std.specs.Prelude.{◌≤◌};

use numbers::Refusal;

// What a table runs.
#[derive(Clone, Copy)]
enum Call {
    Flux,
    Threshold,
    Onsets,
    Suppression,
    Times,
    Gaps,
}

fn main(rt: HostRuntime) {
    fluxes(&rt);
    thresholds(&rt);
    onset_lists(&rt);
    suppressions(&rt);
    time_lists(&rt);
    gaps(&rt);
}

// ---- flux

// Nine rows are slot 0 and twice four slots side by side; seven leave two slots over. Number 2 comes before 3, and says that rows and bins
// are within their bounds.
fn fluxes(rt: &impl Print) {
    table(
        rt,
        Call::Flux,
        "flux of 9 rows in 11 slots|0|18|9|2|11|11
flux of 9 rows in 9 slots|0|18|9|2|9|11
flux of 9 rows in 8 slots|0|18|9|2|8|11
flux of 7 rows in 7 slots|0|14|7|2|7|11
flux of 2 rows of 9 bins|0|18|2|9|2|11
flux of 1 row in 1 slot|0|3|1|3|1|11
flux of 0 rows in 0 slots|0|0|0|3|0|11
flux of 17 magnitudes as 9 rows of 2|0|17|9|2|9|11
flux of 17 magnitudes as 8 rows of 2 in 7 slots|0|17|8|2|7|11
flux of 1048576 rows|0|2|1048576|1|2|11
flux of 1048577 rows|0|2|1048577|1|2|11
flux of 0 rows of 0 bins|0|0|0|0|2|11
flux of 2 rows of 1 bin|0|2|2|1|2|11
flux of 0 rows of 4096 bins|0|0|0|4096|2|11
flux of 0 rows of 4097 bins|0|0|0|4097|2|11
flux of most rows and most bins|0|2|1048576|4096|2|11
flux of -2^126, 2^126|18|20|2|1|2|3
flux of 0, above 2^126|20|22|2|1|2|3
flux of below -2^126, 0|22|24|2|1|2|3
flux of 0, infinity|24|26|2|1|2|3
flux of nan, 0|26|28|2|1|2|3
flux of nan, 0 in 1 slot|26|28|2|1|1|3\n",
    );
}

// The magnitudes from (1) to (2), as (3) rows of (4) bins, into the first (5) slots; (6) slots are shown.
fn flux(rt: &impl Print, line: &[u8]) {
    let end = run_cases::column_within(line, 2, 28);
    flux_of(
        rt,
        run_cases::column_within(line, 1, end),
        end,
        run_cases::column(line, 3),
        run_cases::column(line, 4),
        run_cases::column_within(line, 5, 26),
        run_cases::column(line, 6),
    );
}

fn flux_of(
    rt: &impl Print,
    from: usize,
    end: usize,
    rows: usize,
    bins: usize,
    room: usize,
    shown: usize,
)
    requires { (from ≤ end) × (end ≤ 28) × (room ≤ 26) }
{
    let most = 85070591730234615865843651857942052864.0f32; // 2^126
    let above = 85070601871439417691678863815628095488.0f32;
    let slab = [
        0.5f32,
        1.0,
        0.75,
        3.0,
        0.0,
        0.3,
        1.0,
        0.7,
        -1.0,
        5.0,
        0.1,
        5.0,
        7.5,
        0.2,
        0.0,
        0.4,
        100.0,
        0.001,
        -most, // 18: two rows of one bin
        most,
        0.0, // 20
        above,
        -above, // 22
        0.0,
        0.0, // 24
        1.0f32 / 0.0,
        0.0f32 / 0.0, // 26
        0.0,
    ];
    let mut out = [9.0f64; 26];
    let answer = flux::spectral_flux(&slab[from..end], rows, bins, &mut out[0..room]);
    run_show::outcome(rt, &answer);
    run_show::words(rt, b",");
    slots(rt, &out, 0, shown);
    run_show::end(rt);
}

// The slots from `from` to `to`, lent or not.
fn slots(rt: &impl Print, xs: &[f64; 26], from: usize, to: usize) {
    part(rt, xs, from, to);
}

fn part(rt: &impl Print, xs: &[f64], from: usize, to: usize) {
    let end = to.min(xs.len());
    run_show::floats(rt, &xs[from.min(end)..end]);
}

// ---- threshold

// A threshold may be larger than 2^150.
fn thresholds(rt: &impl Print) {
    table(
        rt,
        Call::Threshold,
        "threshold of 25 slots in 26 with 22|0|25|26|22|26|21|22
threshold of 25 slots in 25 with 21|0|25|25|21|26|21|22
threshold of 25 slots in 24 with 21|0|25|24|21|26|0|22
threshold of 25 slots in 25 with 20|0|25|25|20|26|0|22
threshold of 4 slots in 4 with 4|0|4|4|4|26|4|22
threshold of 4 slots in 4 with 3|0|4|4|3|26|0|22
threshold of 1 slot in 1 with 1|0|1|1|1|26|1|22
threshold of 0 slots in 0 with 0|0|0|0|0|26|0|22
threshold of -2^150, 2^150|25|27|3|2|3|2|2
threshold of 0, above 2^150|27|29|3|2|3|2|2
threshold of below -2^150, 0|29|31|3|2|3|2|2
threshold of 0, -infinity|31|33|3|2|3|2|2
threshold of nan, 0|33|35|3|2|3|2|2
threshold of nan, 0 with 1|33|35|3|1|3|2|2\n",
    );
}

// The slots from (1) to (2), into the first (3) slots, with (4) to sort in; (5) slots are shown, and those to sort in from (6) to (7).
fn threshold(rt: &impl Print, line: &[u8]) {
    let end = run_cases::column_within(line, 2, 35);
    threshold_of(
        rt,
        run_cases::column_within(line, 1, end),
        end,
        run_cases::column_within(line, 3, 26),
        run_cases::column_within(line, 4, 26),
        run_cases::column(line, 5),
        run_cases::column(line, 6),
        run_cases::column(line, 7),
    );
}

fn threshold_of(
    rt: &impl Print,
    from: usize,
    end: usize,
    room: usize,
    sorting: usize,
    shown: usize,
    kept: usize,
    last: usize,
)
    requires { (from ≤ end) × (end ≤ 35) × (room ≤ 26) × (sorting ≤ 26) }
{
    let most = 1427247692705959881058285969449495136382746624.0f64; // 2^150
    let above = 1427247692705960198040629304906567743379996672.0f64;
    let flux = [
        0.0f64,
        1.0,
        0.5,
        3.0,
        0.25,
        0.125,
        8.0,
        0.1,
        0.2,
        0.3,
        0.4,
        0.5,
        0.6,
        7.0,
        0.7,
        0.8,
        0.9,
        1.1,
        1.2,
        1.3,
        1.4,
        9.0,
        1.6,
        0.05,
        0.0,
        -most, // 25: two slots
        most,
        0.0, // 27
        above,
        -above, // 29
        0.0,
        0.0, // 31
        -1.0f64 / 0.0,
        0.0f64 / 0.0, // 33
        0.0,
    ];
    let mut out = [9.0f64; 26];
    let mut work = [9.0f64; 26];
    let answer = threshold::adaptive_threshold(
        &flux[from..end],
        &mut out[0..room],
        &mut work[0..sorting],
    );
    run_show::outcome(rt, &answer);
    run_show::words(rt, b",");
    slots(rt, &out, 0, shown);
    run_show::words(rt, b", work");
    slots(rt, &work, kept, last);
    run_show::end(rt);
}

// ---- onsets

fn onset_lists(rt: &impl Print) {
    table(
        rt,
        Call::Onsets,
        "onsets at 48000|0|24|0|24|48000|26|26
onsets at 8000|0|24|0|24|8000|26|26
onsets at 192000|0|24|0|24|192000|26|26
onsets at 192001|0|24|0|24|192001|26|26
onsets at 1|0|24|0|24|1|26|26
onsets at 0|0|24|0|24|0|26|26
onsets of 24 slots in 24|0|24|0|24|8000|24|26
onsets of 24 slots in 23|0|24|0|24|8000|23|26
onsets of 24 slots with 23 thresholds in 23|0|24|0|23|8000|23|26
onsets of 24 slots with 25 thresholds in 23|0|24|0|25|8000|23|26
onsets of 4 slots in 4|0|4|0|4|8000|4|26
onsets of 3 slots in 3|0|3|0|3|8000|3|26
onsets of 2 slots in 2|0|2|0|2|8000|2|26
onsets of 0 slots in 0|0|0|0|0|8000|0|26
onsets of 3, 3, 2|24|27|25|28|48000|3|3
onsets of 0, 3, 3|27|30|25|28|48000|3|3
onsets of 0, 3, 0 above 3|30|33|28|31|48000|3|3
onsets of 0, 2^150, -1 above -2^150|33|36|31|34|48000|3|3
onsets of above 2^150|36|39|25|28|48000|3|3
onsets above what is above 2^150|39|42|34|37|48000|3|3
onsets of nan|42|45|25|28|48000|3|3
onsets above nan|39|42|37|40|48000|3|3\n",
    );
}

// The slots from (1) to (2) with the thresholds from (3) to (4), at rate (5), into the first (6) slots; (7) are shown.
fn onsets(rt: &impl Print, line: &[u8]) {
    let end = run_cases::column_within(line, 2, 45);
    let high = run_cases::column_within(line, 4, 40);
    onsets_of(
        rt,
        run_cases::column_within(line, 1, end),
        end,
        run_cases::column_within(line, 3, high),
        high,
        run_cases::column_u32(line, 5),
        run_cases::column_within(line, 6, 26),
        run_cases::column(line, 7),
    );
}

fn onsets_of(
    rt: &impl Print,
    from: usize,
    end: usize,
    low: usize,
    high: usize,
    rate: u32,
    room: usize,
    shown: usize,
)
    requires { (from ≤ end) × (end ≤ 45) × (low ≤ high) × (high ≤ 40) × (room ≤ 26) }
{
    let most = 1427247692705959881058285969449495136382746624.0f64; // 2^150
    let above = 1427247692705960198040629304906567743379996672.0f64;
    let nan = 0.0f64 / 0.0;
    let flux = [
        9.0f64, 1.0, 5.0, 0.0, 3.0, 3.0, 2.0, 0.0, 6.0, 0.0, 7.0, 0.0, 0.0, 0.5, 0.0, 0.0, 0.0,
        0.0, 0.0, 4.0, 4.0, 0.0, 1.0, 9.0, 3.0, // 24: three slots
        3.0, 2.0, 0.0, // 27
        3.0, 3.0, 0.0, // 30
        3.0, 0.0, 0.0, // 33
        most, -1.0, above, // 36
        1.0, 1.0, 1.0, // 39
        1.0, 1.0, 1.0, // 42
        1.0, nan,
    ];
    let level = [
        0.5f64, 0.5, 0.5, 0.5, 0.5, 0.5, 0.5, 0.5, 0.5, 0.5, 0.5, 0.5, 0.5, 0.5, 0.5, 0.5, 0.5,
        0.5, 0.5, 0.5, 0.5, 0.5, 0.5, 0.5, 0.5, 1.0, // 25: three slots
        1.0, 1.0, 1.0, // 28
        3.0, 1.0, 1.0, // 31
        -most, 1.0, 1.0, // 34
        above, 1.0, 1.0, // 37
        nan, 1.0,
    ];
    let mut frames = [77u32; 26];
    let r = onsets::pick_onsets(
        &flux[from..end],
        &level[low..high],
        rate,
        &mut frames[0..room],
    );
    listing(rt, r, &frames, shown);
}

fn listing(rt: &impl Print, r: Result<usize, Refusal>, frames: &[u32; 26], shown: usize) {
    run_show::outcome(rt, &r);
    run_show::words(rt, b" count");
    run_show::count(rt, r.unwrap_or(0));
    run_show::words(rt, b",");
    first(rt, frames, shown);
    run_show::end(rt);
}

fn first(rt: &impl Print, frames: &[u32], shown: usize) {
    run_show::smalls(rt, &frames[0..shown.min(frames.len())]);
}

// ---- suppression

fn suppressions(rt: &impl Print) {
    table(
        rt,
        Call::Suppression,
        "M4: 10, 16, 22, gap 6|10|16|22|3|0|24|6|3|4
10, 16, 22, gap 5|10|16|22|3|0|24|5|3|4
10, 16, 22, gap 0|10|16|22|3|0|24|0|3|4
10, 16, 22, largest gap|10|16|22|3|0|24|18446744073709551615|3|4
M2: 10 and 16|10|16|0|2|24|48|6|2|3
M3: 10 and 17|10|17|0|2|24|48|6|3|3
10 and 10|10|10|0|2|24|48|6|2|3
10 and 9 in 1 slot|10|9|0|2|24|48|6|1|3
0 and 23 of 24 in 2 slots|0|23|0|2|24|48|6|2|3
0 and 24 of 24 in 2 slots|0|24|0|2|24|48|6|2|3
0 and 23 of 24 in 1 slot|0|23|0|2|24|48|6|1|3
none of 24 in 0 slots|0|0|0|0|24|48|6|0|3
none of 0 in 0 slots|0|0|0|0|24|24|6|0|3
0 of 0 in 1 slot|0|0|0|1|24|24|6|1|3
2^150|1|2|0|2|48|51|9|2|2
-2^150|1|2|0|2|51|54|9|2|2
below -2^150|1|2|0|2|54|57|9|2|2
nan|1|2|0|2|57|60|9|2|2
nan in 1 slot|1|2|0|2|57|60|9|1|2\n",
    );
}

// The first (4) of the peaks (1) to (3), of the curve from (5) to (6), with gap (7), into the first (8) slots; (9) are shown.
fn suppression(rt: &impl Print, line: &[u8]) {
    let end = run_cases::column_within(line, 6, 60);
    suppression_of(
        rt,
        run_cases::column_u32(line, 1),
        run_cases::column_u32(line, 2),
        run_cases::column_u32(line, 3),
        run_cases::column_within(line, 4, 3),
        run_cases::column_within(line, 5, end),
        end,
        run_cases::column(line, 7),
        run_cases::column_within(line, 8, 26),
        run_cases::column(line, 9),
    );
}

fn suppression_of(
    rt: &impl Print,
    p: u32,
    q: u32,
    r: u32,
    many: usize,
    from: usize,
    end: usize,
    gap: usize,
    room: usize,
    shown: usize,
)
    requires { (many ≤ 3) × (from ≤ end) × (end ≤ 60) × (room ≤ 26) }
{
    let most = 1427247692705959881058285969449495136382746624.0f64; // 2^150
    let below = -1427247692705960198040629304906567743379996672.0f64;
    let peaks = [p, q, r];
    let curve = [
        0.0f64,
        0.0,
        0.0,
        0.0,
        0.0,
        0.0,
        0.0,
        0.0,
        0.0,
        0.0,
        5.0,
        0.0,
        0.0,
        0.0,
        0.0,
        0.0,
        6.0,
        0.0,
        0.0,
        0.0,
        0.0,
        0.0,
        7.0,
        0.0,
        5.0, // 24: as many equal slots
        5.0,
        5.0,
        5.0,
        5.0,
        5.0,
        5.0,
        5.0,
        5.0,
        5.0,
        5.0,
        5.0,
        5.0,
        5.0,
        5.0,
        5.0,
        5.0,
        5.0,
        5.0,
        5.0,
        5.0,
        5.0,
        5.0,
        5.0,
        1.0, // 48: three slots
        2.0,
        most,
        1.0, // 51
        2.0,
        -most,
        1.0, // 54
        2.0,
        below,
        1.0, // 57
        2.0,
        0.0f64 / 0.0,
    ];
    let mut frames = [77u32; 26];
    let kept = onsets::peaks::suppress_close_peaks(
        &peaks[0..many],
        &curve[from..end],
        gap,
        &mut frames[0..room],
    );
    listing(rt, kept, &frames, shown);
}

// ---- times and gaps

fn time_lists(rt: &impl Print) {
    table(
        rt,
        Call::Times,
        "times at 48000|1048575|4|48000|5
times at 44100|1048575|4|44100|5
times at 192000|1048575|4|192000|5
times at 192001|1048575|4|192001|5
times at 1|1048575|4|1|5
times at 0|1048575|4|0|5
times of frame 1048576 in 3 slots|1048576|4|48000|3
times of 4 frames in 4 slots|1048575|4|48000|4
times of 4 frames in 3 slots|1048575|4|48000|3
times of 0 frames in 0 slots|1048576|0|48000|0\n",
    );
}

// The first (2) of four frames, the last of them (1), at rate (3), into the first (4) of five slots.
fn times(rt: &impl Print, line: &[u8]) {
    times_of(
        rt,
        run_cases::column_u32(line, 1),
        run_cases::column_within(line, 2, 4),
        run_cases::column_u32(line, 3),
        run_cases::column_within(line, 4, 26),
    );
}

fn times_of(rt: &impl Print, last: u32, many: usize, rate: u32, room: usize)
    requires { (many ≤ 4) × (room ≤ 26) }
{
    let frames = [2u32, 0, 100, last];
    let mut ms = [9.0f64; 26];
    let answer = onsets::frame_times(&frames[0..many], rate, &mut ms[0..room]);
    run_show::outcome(rt, &answer);
    run_show::words(rt, b",");
    slots(rt, &ms, 0, 5);
    run_show::end(rt);
}

fn gaps(rt: &impl Print) {
    table(
        rt,
        Call::Gaps,
        "gap at 1 is|1
gap at 8533 is|8533
gap at 8534 is|8534
gap at 44100 is|44100
gap at 48000 is|48000
gap at 192000 is|192000\n",
    );
}

// The gap at rate (1).
fn gap(rt: &impl Print, line: &[u8]) {
    run_show::count(rt, onsets::gap_of(run_cases::column_u32(line, 1)));
    run_show::end(rt);
}

// ---- the tables

fn table(rt: &impl Print, call: Call, cases: &str) {
    for line in cases.lines() {
        run(rt, call, line.as_bytes());
    }
}

fn run(rt: &impl Print, call: Call, line: &[u8]) {
    run_show::words(rt, run_cases::part(line, b'|', 0));
    match call {
        Call::Flux => flux(rt, line),
        Call::Threshold => threshold(rt, line),
        Call::Onsets => onsets(rt, line),
        Call::Suppression => suppression(rt, line),
        Call::Times => times(rt, line),
        Call::Gaps => gap(rt, line),
    }
}
