// Runs similarity and novelty on both sides of each boundary of document 01, and prints what they answer and the slots afterwards: those past the
// formula, and all of them at a refusal, must be as they were (9). The file stdout holds what must come out.
#![tactic(auto)]

ghost use Rattle.std.specs.Prelude.{◌≤◌};

use numbers::Refusal;

// The cases of the refusals, one to a line: s for similarity or n for novelty; what is lent to it, which is the first digit in every slot,
// but one in slot 17 and, in the slot that is told, the value by its letter or digit; how many slots of that are lent; the rows; how many slots are lent to
// be written, of eighteen for similarity and of three for novelty; and what the line begins with. Letters from a on are numbers from ten on, and
// rows y and z 50,000 and 50,001. A lower number goes before a higher one; a slot that the kernel never reads, 16, is judged too.
fn refusals(rt: &impl Print) {
    each_case(
        rt,
        "\
          s 101 0 z 0 similarity, 50001 rows:\n\
          s 101 0 y 0 similarity, 50000 rows without values:\n\
          s 101 f 1 i similarity, 15 values:\n\
          s 101 h 1 i similarity, 17 values:\n\
          s 101 g 1 g similarity, 16 slots:\n\
          s 101 g 1 h similarity, 17 slots:\n\
          s 101 g 1 i similarity, 18 slots:\n\
          s 101 0 0 i similarity, no rows:\n\
          s 07b g 1 h 2^150:\n\
          s 07c g 1 h -2^150:\n\
          s 07a g 1 h above 2^150:\n\
          s 07n g 1 h NaN:\n\
          s 07i g 1 h infinity:\n\
          s 10n f 1 g NaN and 15 values and 16 slots:\n\
          s 10n g 1 g NaN and 16 slots:\n\
          n 001 0 z 0 novelty, 50001 rows:\n\
          n 001 0 y 0 novelty, 50000 rows without slots:\n\
          n 001 x 2 3 novelty, 33 similarities:\n\
          n 001 z 2 3 novelty, 35 similarities:\n\
          n 001 y 2 1 novelty, 1 slot:\n\
          n 001 y 2 2 novelty, 2 slots:\n\
          n 001 y 2 3 novelty, 3 slots:\n\
          n 001 0 0 3 novelty, no rows:\n\
          n 001 h 1 1 1:\n\
          n 00m h 1 1 -1:\n\
          n 00v h 1 1 above 1:\n\
          n 00w h 1 1 below -1:\n\
          n 00n h 1 1 NaN:\n\
          n 0g1 h 1 1 unread 1:\n\
          n 0gv h 1 1 unread above 1:\n",
    );
}

fn rows_of(byte: u8) -> usize {
    match byte {
        b'y' => 50000,
        b'z' => 50001,
        _ => run_cases::digit(byte, 9),
    }
}

// Runs each case of a text.
fn each_case(rt: &impl Print, cases: &str) {
    for line in cases.lines() {
        case(rt, line.as_bytes());
    }
}

fn case(rt: &impl Print, c: &[u8]) {
    if c.len() < 12 {
        return;
    }
    run_show::words(rt, &c[12..]);
    let kind = c[0];
    let n = run_cases::digit(c[6], 35);
    let rows = rows_of(c[8]);
    let room = run_cases::digit(c[10], 18);
    let lent = values_lent(c[2], run_cases::digit(c[3], 34), run_cases::value(c[4]));
    refusal(rt, kind, &lent[0..n], rows, room);
}

fn values_lent(all: u8, at: usize, value: f64) -> [f64; 35]
    requires { at ≤ 34 }
{
    let mut values = [0.0f64; 35];
    if all == b'1' {
        values = [1.0f64; 35];
    }
    values[17] = 1.0;
    values[at] = value;
    values
}

fn refusal(rt: &impl Print, kind: u8, values: &[f64], rows: usize, room: usize) {
    if kind == b's' {
        let s = similarity_of(values, rows, room);
        run_show::outcome(rt, &s.answer);
        run_show::words(rt, b", slots");
        similarity_slots(rt, &s.slots, 0, 18);
        return;
    }
    told(rt, novelty_of(values, rows, room), 3);
}

#[derive(Drop)]
struct Similar {
    answer: Result<(), Refusal>,
    slots: [f64; 2210],
}

// The answer of similarity where the first `room` slots are lent, and all of them afterwards.
fn similarity_of(features: &[f64], rows: usize, room: usize) -> Similar {
    let mut slots = [9.0f64; 2210];
    let answer = similarities::similarity(features, rows, &mut slots[0..room.min(2210)]);
    Similar { answer, slots }
}

fn similarity_slots(rt: &impl Print, slots: &[f64; 2210], from: usize, past: usize)
    requires { (from ≤ past) × (past ≤ 2210) }
{
    let all = &slots[..];
    run_show::floats(rt, &all[from..past]);
    run_show::end(rt);
}

#[derive(Drop)]
struct Novel {
    answer: Result<(), Refusal>,
    slots: [f64; 131],
}

fn novelty_of(similarity: &[f64], rows: usize, room: usize) -> Novel {
    let mut slots = [9.0f64; 131];
    let answer = novelties::novelty(similarity, rows, &mut slots[0..room.min(131)]);
    Novel { answer, slots }
}

// The end of a line: the number, and the first n slots.
fn told(rt: &impl Print, novelty: Novel, n: usize)
    requires { n ≤ 131 }
{
    run_show::outcome(rt, &novelty.answer);
    run_show::words(rt, b", slots");
    novelty_slots(rt, &novelty.slots, n);
}

fn novelty_slots(rt: &impl Print, slots: &[f64; 131], n: usize)
    requires { n ≤ 131 }
{
    let all = &slots[..];
    run_show::floats(rt, &all[0..n]);
    run_show::end(rt);
}

// A value from -128 to 127.99609375.
fn value_at(seed: u32) -> f64 {
    seed as f64 / 256.0 - 128.0
}

// Values that look like chance, and zeros from slot `from` up to `past`.
fn fill(values: &mut [f64], from: usize, past: usize) {
    let mut seed = 1u32;
    for (k, value) in values.iter_mut().enumerate() {
        seed = (seed * 1103 + 12345) % 65536;
        *value = if from <= k && k < past {
            0.0
        } else {
            value_at(seed)
        };
    }
}

// Chance, with zeros from slot `from` up to `past`.
fn chance(from: usize, past: usize) -> [f64; 2080] {
    let mut features = [0.0f64; 2080];
    fill(&mut features, from, past);
    features
}

// Exactly -1 and 1, a minus zero that is kept, and rows whose squares underflow, all or not.
fn small_rows() -> [f64; 2080] {
    let mut features = [0.0f64; 2080];
    features[0] = 2.0;
    features[16] = -2.0;
    features[32] = 1e-156;
    features[48] = 5e-324;
    features[64] = 1e-162;
    features[65] = 1e40;
    features[80] = -5e-162;
    features[82] = 1e40;
    features
}

// The similarity of some rows, then the novelty of it; of the similarity the slots from row `from` up to row `past` are printed.
fn both(rt: &impl Print, label: &[u8], features: [f64; 2080], rows: usize, from: usize, past: usize)
    requires { (rows ≤ 130) × (from ≤ past) × (past ≤ rows) }
{
    run_show::words(rt, label);
    let s = similarity_of(&features[0..16 * rows], rows, 17 * rows);
    run_show::outcome(rt, &s.answer);
    run_show::words(rt, b", similarity");
    similarity_slots(rt, &s.slots, 17 * from, 17 * past);
    novelty_line(rt, &s.slots, rows);
}

fn novelty_line(rt: &impl Print, similarity: &[f64; 2210], rows: usize)
    requires { rows ≤ 130 }
{
    let all = &similarity[..];
    run_show::words(rt, b"  novelty");
    told(rt, novelty_of(&all[0..17 * rows], rows, rows + 1), rows + 1);
}

// Rows 5 and 6 of 23 are zeros. Every row the same: one novelty, not 0, wherever the kernel lies inside. 130 rows are more than one block.
fn some_rows(rt: &impl Print) {
    both(rt, b"1 row:", chance(0, 0), 1, 0, 1);
    both(rt, b"15 rows:", chance(0, 0), 15, 0, 2);
    both(rt, b"16 rows:", chance(0, 0), 16, 0, 2);
    both(rt, b"17 rows:", chance(0, 0), 17, 0, 2);
    both(rt, b"23 rows, two of zeros:", chance(80, 112), 23, 4, 7);
    both(rt, b"20 rows of threes:", [3.0; 2080], 20, 0, 1);
    both(rt, b"6 rows:", small_rows(), 6, 0, 6);
    both(rt, b"130 rows:", chance(0, 0), 130, 110, 114);
}

fn main(rt: HostRuntime) {
    refusals(&rt);
    some_rows(&rt);
}
