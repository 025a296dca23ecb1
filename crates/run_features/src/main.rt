// Runs feature_rows on both sides of each boundary of document 02's No. 7, and prints its number and each slot afterwards, those that were not lent too,
// which hold 9. The file stdout holds what must come out: numbers by the document, values by the Rust's own lines.
//
// The cases stand in a table, one to a line, with bars between the columns: the label; rate, length and count; rows, how many slots of magnitudes are lent
// and how many samples, how many slots of features; what the magnitudes are, 0 for silence and 1 for a pattern of thirteenths; and the slot that gets another
// value, with that value: 0 for none, 1 to 6 for a magnitude and 7 to 10 for a sample.
#![tactic(auto)]

ghost use Rattle.std.specs.Prelude.{◌<◌};

fn main(rt: HostRuntime) {
    bounds(&rt);
    edges(&rt);
    places(&rt);
    values(&rt);
}

// Each number's bounds; a lower number goes before a higher one.
fn bounds(rt: &impl Print) {
    table(
        rt,
        "three rows, five feature rows|48000|1024|5|3|6147|5120|80|1|0|0
rate 0|0|1024|5|3|6147|5120|80|1|0|0
rate 1|1|1024|5|3|6147|5120|80|1|0|0
rate 192000|192000|1024|5|3|6147|5120|80|1|0|0
rate 192001|192001|1024|5|3|6147|5120|80|1|0|0
1048576 rows|48000|1024|5|1048576|6147|5120|80|1|0|0
1048577 rows|48000|1024|5|1048577|6147|5120|80|1|0|0
length 0|48000|0|5|3|6147|5120|80|1|0|0
length 1|48000|1|5|3|6147|5|80|1|0|0
length 2147483648|48000|2147483648|1|3|6147|5120|16|1|0|0
length 2147483649|48000|2147483649|1|3|6147|5120|16|1|0|0
a sample more than five rows|48000|1024|6|3|6147|5121|96|1|0|0
a sample more, counted as five|48000|1024|5|3|6147|5121|82|1|0|0
a sample less than five rows|48000|1024|5|3|6147|5119|82|1|0|0
counted as four|48000|1024|4|3|6147|5120|82|1|0|0
counted as six|48000|1024|6|3|6147|5120|82|1|0|0
50000 counted|48000|1|50000|3|6147|5120|82|1|0|0
50001 counted|48000|1|50001|3|6147|5120|82|1|0|0
no samples|48000|1024|0|3|6147|0|82|1|0|0
no samples, counted as one|48000|1024|1|3|6147|0|82|1|0|0
no rows|48000|1024|5|0|0|5120|80|1|0|0
a magnitude too few|48000|1024|5|3|6146|5120|80|1|0|0
a magnitude too many|48000|1024|5|3|6148|5120|80|1|0|0
79 slots|48000|1024|5|3|6147|5120|79|1|0|0
81 slots|48000|1024|5|3|6147|5120|81|1|0|0
rate 0 and a magnitude too few and 79 slots and NaN|0|1024|5|3|6146|5120|79|1|7|4
a magnitude too few and 79 slots and NaN|48000|1024|5|3|6146|5120|79|1|7|4
79 slots and NaN|48000|1024|5|3|6147|5120|79|1|7|4\n",
    );
}

// At rate 20,480 bin k stands at 5k Hz: one bin alone, on and beside the edges of the pitch classes, 55 and 5,000 Hz, and of the bands, 250 and 4,000 Hz.
fn edges(rt: &impl Print) {
    table(
        rt,
        "silence|20480|4096|1|1|2049|4096|16|0|0|0
0 Hz|20480|4096|1|1|2049|4096|16|0|0|1
50 Hz|20480|4096|1|1|2049|4096|16|0|10|1
55 Hz|20480|4096|1|1|2049|4096|16|0|11|1
60 Hz|20480|4096|1|1|2049|4096|16|0|12|1
245 Hz|20480|4096|1|1|2049|4096|16|0|49|1
250 Hz|20480|4096|1|1|2049|4096|16|0|50|1
255 Hz|20480|4096|1|1|2049|4096|16|0|51|1
440 Hz|20480|4096|1|1|2049|4096|16|0|88|1
3995 Hz|20480|4096|1|1|2049|4096|16|0|799|1
4000 Hz|20480|4096|1|1|2049|4096|16|0|800|1
4005 Hz|20480|4096|1|1|2049|4096|16|0|801|1
4995 Hz|20480|4096|1|1|2049|4096|16|0|999|1
5000 Hz|20480|4096|1|1|2049|4096|16|0|1000|1
5005 Hz|20480|4096|1|1|2049|4096|16|0|1001|1
10240 Hz|20480|4096|1|1|2049|4096|16|0|2048|1\n",
    );
}

// Rows whose centres lie on and beside the edges of feature rows, and past the last one, which has them all.
fn places(rt: &impl Print) {
    table(
        rt,
        "length 1023|44100|1023|6|3|6147|5120|96|1|0|0
length 1024|44100|1024|5|3|6147|5120|80|1|0|0
length 1025|44100|1025|5|3|6147|5120|80|1|0|0
length 2048|44100|2048|3|3|6147|5120|48|1|0|0
length 2049|44100|2049|3|3|6147|5120|48|1|0|0
length 1000 at rate 1|1|1000|6|3|6147|5120|96|1|0|0
length 1024 at rate 191999|191999|1024|5|3|6147|5120|80|1|0|0
all in the last of three|8000|512|3|3|6147|1536|48|1|0|0
a short last row|8000|1500|4|3|6147|4501|64|1|0|0
one sample in the last row|8000|2560|3|3|6147|5121|48|1|0|0\n",
    );
}

// Values that are fine and that are not; with no feature row they are judged too.
fn values(rt: &impl Print) {
    table(
        rt,
        "-0|48000|1024|5|3|6147|5120|80|1|5000|2
2^126|48000|1024|5|3|6147|5120|80|1|5000|3
the next above 2^126|48000|1024|5|3|6147|5120|80|1|5000|4
a NaN|48000|1024|5|3|6147|5120|80|1|5000|5
the least negative|48000|1024|5|3|6147|5120|80|1|6146|6
a sample that is NaN|48000|1024|5|3|6147|5120|80|1|5119|7
a sample that is infinite|48000|1024|5|3|6147|5120|80|1|0|8
the greatest sample|48000|1024|5|3|6147|5120|80|1|4000|9
the least sample|48000|1024|5|3|6147|5120|80|1|4000|10
no samples and a NaN|48000|1024|0|3|6147|0|80|1|5000|5
no samples and -0|48000|1024|0|3|6147|0|80|1|5000|2\n",
    );
}

fn table(rt: &impl Print, cases: &str) {
    for line in cases.lines() {
        case(rt, line.as_bytes());
    }
}

fn case(rt: &impl Print, line: &[u8]) {
    run_show::words(rt, run_cases::part(line, b'|', 0));
    run_show::words(rt, b":");
    let slots = run_cases::column_within(line, 5, 6148);
    let n = run_cases::column_within(line, 6, 5121);
    let room = run_cases::column_within(line, 7, 98);
    let at = run_cases::column(line, 9);
    let what = run_cases::column(line, 10);
    let magnitudes = magnitudes_of(run_cases::column(line, 8), at.min(6147), what);
    let samples = samples_of(at.min(5120), what);
    let mut features = [9.0f64; 98];
    let answer = features::feature_rows(
        &magnitudes[0..slots],
        run_cases::column(line, 4),
        &samples[0..n],
        run_cases::column_u32(line, 1),
        run_cases::column(line, 2) as u64,
        run_cases::column(line, 3),
        &mut features[0..room],
    );
    run_show::outcome(rt, &answer);
    run_show::floats(rt, &features);
    run_show::end(rt);
}

// Thirteenths in turn, or silence, and one slot with another value.
fn magnitudes_of(kind: usize, at: usize, what: usize) -> [f32; 6148]
    requires { at < 6148 }
{
    let mut m = [0.0f32; 6148];
    for (k, value) in m.iter_mut().enumerate() {
        *value = thirteenth(kind, k);
    }
    if 0 < what && what < 7 {
        m[at] = magnitude(what);
    }
    m
}

fn thirteenth(kind: usize, k: usize) -> f32 {
    if kind == 0 {
        return 0.0;
    }
    ((k % 13) as u16) as f32 / 13.0
}

fn magnitude(what: usize) -> f32 {
    match what {
        1 => 1.5,
        2 => -0.0,
        3 => 85070591730234615865843651857942052864.0,
        4 => 85070601871439417148703427781600903168.0,
        5 => 0.0 / 0.0,
        _ => -0.00000000000000000000000000000000000000000000140129846432481707,
    }
}

// Elevenths about 0 in turn, and one slot with another value.
fn samples_of(at: usize, what: usize) -> [f32; 5121]
    requires { at < 5121 }
{
    let mut s = [0.0f32; 5121];
    for (k, value) in s.iter_mut().enumerate() {
        *value = eleventh(k);
    }
    if what > 6 {
        s[at] = sample(what);
    }
    s
}

fn eleventh(k: usize) -> f32 {
    ((k % 11) as u16) as f32 / 11.0 - 0.5
}

fn sample(what: usize) -> f32 {
    match what {
        7 => 0.0 / 0.0,
        8 => 1.0 / 0.0,
        9 => 340282346638528859811704183484516925440.0,
        _ => -340282346638528859811704183484516925440.0,
    }
}
