// Runs the calls of `rooms` and `analysis` on a track of clicks, on both sides of each boundary, and prints what they answer and leave; the file stdout holds
// what must come out.
//
// The clicks are four frames apart, from frame 1 on, at rate 2,048: eight frames a second, so 120 beats a minute. The lags are 2 to 16.
//
// What is run whole is `analyse_magnitudes`, on the magnitudes whose flux is the clicks. `analyse_envelope` is run by the reporting program (report_answer),
// and its refusals here, by `rooms::envelope_refusal`, which it asks first: a function that lends so many slices takes the prover long, so there is one.
//
// The cases stand in tables, one to a line, with bars between the columns: the label, then the numbers that the function
// of that name takes, where (1) is column 1.
#![tactic(auto)]

ghost use Rattle.std.specs.Prelude.{◌≤◌, length};

use numbers::Refusal;
use options::TempoOpts;
use rooms::Room;
use stability::Stability;
use tempo::{Candidate, Tempo};
use track::Analysis;

// What a table runs.
#[derive(Clone, Copy)]
enum Call {
    Magnitudes,
    Room,
    Lengths,
}

fn main(rt: HostRuntime) {
    magnitudes(&rt);
    lengths(&rt);
    rooms(&rt);
    bounds(&rt);
}

fn table(rt: &impl Print, call: Call, cases: &str) {
    for line in cases.lines() {
        run(rt, call, line.as_bytes());
    }
}

fn run(rt: &impl Print, call: Call, line: &[u8]) {
    run_show::words(rt, run_cases::part(line, b'|', 0));
    match call {
        Call::Magnitudes => of_slab(rt, line),
        Call::Room => named(
            rt,
            run_cases::column(line, 1),
            run_cases::column_u32(line, 2),
            opts_of(run_cases::column(line, 3)),
        ),
        Call::Lengths => of_lengths(rt, line),
    }
}

// The default options, or those of the meter that is one less than what a column holds.
fn opts_of(held: usize) -> TempoOpts {
    if held == 0 {
        return TempoOpts::new();
    }
    TempoOpts::new().with_meter(held - 1)
}

fn tempo_is(rt: &impl Print, t: Tempo) {
    match t {
        Tempo::None => run_show::words(rt, b", no tempo"),
        Tempo::Found { bpm, clarity } => {
            run_show::words(rt, b", tempo");
            run_show::float(rt, bpm);
            run_show::float(rt, clarity);
        }
    }
}

fn stability_is(rt: &impl Print, s: Stability) {
    match s {
        Stability::None => run_show::words(rt, b", no stability"),
        Stability::Share {
            fraction,
            agreeing,
            windows,
        } => {
            run_show::words(rt, b", stability");
            run_show::float(rt, fraction);
            run_show::count(rt, agreeing);
            run_show::count(rt, windows);
        }
    }
}

fn candidate_is(rt: &impl Print, c: Candidate) {
    run_show::count(rt, c.lag);
    run_show::float(rt, c.salience);
}

fn candidates_are(rt: &impl Print, candidates: [Candidate; 3], count: usize) {
    run_show::words(rt, b", candidates");
    run_show::count(rt, count);
    for &c in &candidates {
        candidate_is(rt, c);
    }
}

// What is printed where nothing is analysed.
const NO_ANALYSIS: Analysis = Analysis {
    onsets: 0,
    tempo: Tempo::None,
    candidates: [Candidate {
        lag: 0,
        salience: 0.0,
    }; 3],
    count: 0,
    stability: Stability::None,
    beats: 0,
    downbeats: 0,
};

fn answer(rt: &impl Print, a: Result<Analysis, Refusal>) {
    run_show::outcome(rt, &a);
    let heard = a.unwrap_or(NO_ANALYSIS);
    run_show::words(rt, b", onsets");
    run_show::count(rt, heard.onsets);
    tempo_is(rt, heard.tempo);
    candidates_are(rt, heard.candidates, heard.count);
    stability_is(rt, heard.stability);
    run_show::words(rt, b", beats");
    run_show::count(rt, heard.beats);
    run_show::words(rt, b", downbeats");
    run_show::count(rt, heard.downbeats);
    run_show::end(rt);
}

// So many slots of a slice are lent: its room, or one fewer where `at` is the slice that is short.
fn slots(room: usize, at: usize, short: usize) -> usize {
    if at == short {
        return room.saturating_sub(1);
    }
    room
}

// A curve's first two slots, and the two past its room.
fn curve(rt: &impl Print, label: &[u8], xs: &[f64], room: usize)
    requires { (2 ≤ length xs.now) × (room ≤ length xs.now) }
{
    run_show::words(rt, label);
    run_show::floats(rt, &xs[0..2]);
    run_show::words(rt, b" ..");
    run_show::floats(rt, &xs[room..]);
    run_show::end(rt);
}

fn list(rt: &impl Print, label: &[u8], xs: &[u32]) {
    run_show::words(rt, label);
    run_show::smalls(rt, xs);
    run_show::end(rt);
}

fn curves_are(
    rt: &impl Print,
    threshold: &[f64; 50],
    clarity: &[f64; 17],
    weight: &[f64; 17],
    score: &[f64; 50],
) {
    curve(rt, b"threshold", threshold, 48);
    curve(rt, b"clarity", clarity, 15);
    curve(rt, b"weight", weight, 15);
    curve(rt, b"score", score, 48);
}

fn past(rt: &impl Print, xs: &[f64], room: usize)
    requires { room ≤ length xs.now }
{
    run_show::floats(rt, &xs[room..]);
}

// What is worked in, past its room.
fn worked_in(rt: &impl Print, clarity: &[f64; 17], weight: &[f64; 17], work: &[f64; 23]) {
    run_show::words(rt, b"past what is worked in");
    past(rt, clarity, 15);
    past(rt, weight, 15);
    past(rt, work, 21);
    run_show::end(rt);
}

fn lists_are(
    rt: &impl Print,
    onsets: &[u32; 50],
    back: &[u32; 50],
    beats: &[u32; 50],
    downbeats: &[u32; 50],
) {
    list(rt, b"onsets", onsets);
    list(rt, b"back", back);
    list(rt, b"beats", beats);
    list(rt, b"downbeats", downbeats);
}

// The number of an analysis with the slice `short` of the eleven, counted from 1, one slot short; 0: exactly the room. An analysis asks for it first, by
// the lengths of what is lent, and is refused by nothing else.
fn refused(rt: &impl Print, envelope: &[f64], rate: u32, short: usize, opts: TempoOpts) {
    let frames = [
        slots(48, 1, short),
        slots(48, 2, short),
        slots(48, 7, short),
        slots(48, 8, short),
        slots(48, 9, short),
        slots(48, 10, short),
    ];
    let lags = [
        slots(15, 3, short),
        slots(15, 4, short),
        slots(15, 5, short),
        slots(15, 6, short),
    ];
    let answer = rooms::envelope_refusal(
        envelope,
        rate,
        opts,
        &frames,
        &lags,
        slots(21, 11, short),
    );
    run_show::outcome(rt, &answer);
    run_show::end(rt);
}

// The clicks, or no numbers where (3) is 1, at rate (1), with slice (2) short, and the options of (4).
fn of_lengths(rt: &impl Print, line: &[u8]) {
    let e = envelope_of(run_cases::column(line, 3));
    refused(
        rt,
        &e,
        run_cases::column_u32(line, 1),
        run_cases::column(line, 2),
        opts_of(run_cases::column(line, 4)),
    );
}

fn envelope_of(odd: usize) -> [f64; 48] {
    let mut e = [0.0f64 / 0.0; 48];
    if odd == 1 {
        return e;
    }
    run_cases::spell(b"040004000400040004000400040004000400040004000400", &mut e);
    e
}

// An analysis of an envelope: exactly the room, each of the eleven slices one short, other refusals, and which number comes first.
fn lengths(rt: &impl Print) {
    table(
        rt,
        Call::Lengths,
        "short 0:|2048|0
short 1:|2048|1
short 2:|2048|2
short 3:|2048|3
short 4:|2048|4
short 5:|2048|5
short 6:|2048|6
short 7:|2048|7
short 8:|2048|8
short 9:|2048|9
short 10:|2048|10
short 11:|2048|11
a NaN:|2048|0|1
rate 0:|0|0
rate 192,001:|192001|0
meter 0:|2048|0|0|1
meter 1:|2048|0|0|2
meter 16:|2048|0|0|17
meter 17:|2048|0|0|18
3 before 4:|2048|11|1
a meter before 3:|2048|11|0|1
1 before 3:|0|11\n",
    );
}

// The magnitudes whose flux is the clicks.
const CLICKS: [f32; 48] = [
    0.0, 4.0, 0.0, 0.0, 0.0, 4.0, 0.0, 0.0, 0.0, 4.0, 0.0, 0.0, 0.0, 4.0, 0.0, 0.0, 0.0, 4.0, 0.0,
    0.0, 0.0, 4.0, 0.0, 0.0, 0.0, 4.0, 0.0, 0.0, 0.0, 4.0, 0.0, 0.0, 0.0, 4.0, 0.0, 0.0, 0.0, 4.0,
    0.0, 0.0, 0.0, 4.0, 0.0, 0.0, 0.0, 4.0, 0.0, 0.0,
];

// What is answered, with two slots more in each slice, and what is refused.
fn magnitudes(rt: &impl Print) {
    table(
        rt,
        Call::Magnitudes,
        "clicks:|48|48|1|48|2048
seventeen of their rows:|17|17|1|48|2048
one of them:|4|4|1|48|2048
two bins:|48|24|2|48|2048
no rows:|0|0|1|48|2048
flux one short:|48|48|1|47|2048
no bins:|0|48|0|48|2048
4,097 bins:|48|0|4097|48|2048
half a row:|47|24|2|48|2048
1,048,577 rows:|0|1048577|1|48|2048
2 before 3:|47|24|2|23|2048
an infinity:|48|48|1|48|2048|1
rate 0:|48|48|1|48|0
rate 192,001:|48|48|1|48|192001
clicks in bars of one:|48|48|1|48|2048|0|2
clicks in bars of sixteen:|48|48|1|48|2048|0|17
a waltz in bars of three:|48|48|1|48|2048|2|4
a waltz in bars of four:|48|48|1|48|2048|2|5
meter 0:|48|48|1|48|2048|0|1
meter 17:|48|48|1|48|2048|0|18\n",
    );
}

// The first (1) of the magnitudes, of infinities where (6) is 1, or of a waltz where it is 2, (2) rows of (3) bins, room (4) for the flux, rate (5), and
// the options of (7).
fn of_slab(rt: &impl Print, line: &[u8]) {
    let m = slab_of(run_cases::column(line, 6));
    lent(
        rt,
        &m[0..run_cases::column_within(line, 1, 48)],
        run_cases::column(line, 2),
        run_cases::column(line, 3),
        run_cases::column(line, 4),
        run_cases::column_u32(line, 5),
        opts_of(run_cases::column(line, 7)),
    );
}

fn slab_of(odd: usize) -> [f32; 48] {
    match odd {
        1 => [1.0f32 / 0.0; 48],
        2 => waltz(),
        _ => CLICKS,
    }
}

// The clicks with an accent on every third, from the second on.
fn waltz() -> [f32; 48] {
    let mut m = CLICKS;
    m[5] = 5.0;
    m[17] = 5.0;
    m[29] = 5.0;
    m[41] = 5.0;
    m
}

// Analyses magnitudes. Every slice but the flux is lent and shown with two slots past its room; the flux is shown with the slots that are not lent.
fn lent(
    rt: &impl Print,
    magnitudes: &[f32],
    rows: usize,
    bins: usize,
    room: usize,
    rate: u32,
    opts: TempoOpts,
) {
    let mut flux = [9.0f64; 48];
    let mut threshold = [9.0f64; 50];
    let mut onsets = [77u32; 50];
    let mut clarity = [9.0f64; 17];
    let mut weight = [9.0f64; 17];
    let mut window_clarity = [9.0f64; 17];
    let mut window_weight = [9.0f64; 17];
    let mut score = [9.0f64; 50];
    let mut back = [77u32; 50];
    let mut beats = [77u32; 50];
    let mut downbeats = [77u32; 50];
    let mut work = [9.0f64; 23];
    answer(
        rt,
        analysis::analyse_magnitudes(
            magnitudes,
            rows,
            bins,
            rate,
            opts,
            &mut flux[0..room.min(48)],
            &mut threshold,
            &mut onsets,
            &mut clarity,
            &mut weight,
            &mut window_clarity,
            &mut window_weight,
            &mut score,
            &mut back,
            &mut beats,
            &mut downbeats,
            &mut work,
        ),
    );
    flux_is(rt, &flux);
    curves_are(rt, &threshold, &clarity, &weight, &score);
    worked_in(rt, &window_clarity, &window_weight, &work);
    lists_are(rt, &onsets, &back, &beats, &downbeats);
}

fn flux_is(rt: &impl Print, flux: &[f64; 48]) {
    curve(rt, b"flux", flux, 46);
}

// What is printed where no room is named.
const NO_ROOM: Room = Room {
    rows: 0,
    lags: 0,
    sorting: 0,
};

// The room of an analysis: number, N, L and the sorting room.
fn named(rt: &impl Print, rows: usize, rate: u32, opts: TempoOpts) {
    let answer = rooms::room_of(rows, rate, opts);
    run_show::outcome(rt, &answer);
    let r = answer.unwrap_or(NO_ROOM);
    run_show::count(rt, r.rows);
    run_show::count(rt, r.lags);
    run_show::count(rt, r.sorting);
    run_show::end(rt);
}

// N frames of so many minutes: 1 + (samples - 1,024) div 256. 3, 10 and 60 minutes at 44,100 and at 48,000, then the bounds of both.
fn rooms(rt: &impl Print) {
    table(
        rt,
        Call::Room,
        "frames, rate 31004 44100:|31004|44100
frames, rate 103356 44100:|103356|44100
frames, rate 620153 44100:|620153|44100
frames, rate 33747 48000:|33747|48000
frames, rate 112497 48000:|112497|48000
frames, rate 674997 48000:|674997|48000
frames, rate 0 1:|0|1
frames, rate 1048576 48000:|1048576|48000
frames, rate 1048577 48000:|1048577|48000
frames, rate 48 0:|48|0
frames, rate 48 192001:|48|192001
frames, rate 20 2048:|20|2048
frames, rate 48 2048:|48|2048
meter 0:|48|2048|1
meter 1:|48|2048|2
meter 16:|48|2048|17
meter 17:|48|2048|18\n",
    );
}

fn bounds(rt: &impl Print) {
    let nan = 0.0f64 / 0.0;
    run_show::words(rt, b"a bound that is a NaN:");
    named(rt, 48, 48000, TempoOpts::between(30.0, nan));
    run_show::words(rt, b"0 and 0:");
    named(rt, 48, 48000, TempoOpts::between(0.0, 0.0));
}
