// Repairs of the features of a track of 36 rows, one after the other, refused and empty ones among them. After each, the curves are compared with those of
// an analysis from nothing of the edited rows, and with those before it outside the slots that the answer names and at pairs that touch no replaced row:
// no slot may differ, those behind the curves neither, and the rows replaced must be the new ones. The file stdout holds what must come out.
//
// The cases stand in tables, one to a line, with bars between the columns: the label, the numbers and values that the function of that name takes, where
// (1) is column 1, and what they are about.
#![tactic(auto)]

ghost use Rattle.std.specs.Prelude.{◌≤◌, ◌<◌, length};

use numbers::Refusal;
use patch_features::PatchedFeatures;

#[derive(Clone, Copy)]
struct State {
    features: [f64; 576],
    similarity: [f64; 614],
    novelty: [f64; 38],
}

// A feature value from -5 to 5
fn feature(seed: u32, k: u32) -> f64
    requires { (seed < 1000) × (k < 1000) }
{
    ((seed * 13 + k * 7 + k / 3) % 11) as f64 - 5.0
}

fn fill(values: &mut [f64], seed: u32)
    requires { (seed < 1000) × (length values.old < 1000) }
{
    for (k, value) in values.iter_mut().enumerate() {
        *value = feature(seed, k as u32);
    }
}

// The last slot of each is no number: slots beyond the curves are not read.
fn lent_similarity() -> [f64; 614] {
    let mut curve = [9.0f64; 614];
    curve[613] = 0.0f64 / 0.0;
    curve
}

fn lent_novelty() -> [f64; 38] {
    let mut curve = [9.0f64; 38];
    curve[37] = 0.0f64 / 0.0;
    curve
}

// An analysis from nothing: the similarity of the rows, and the novelty of it.
fn similarity_of(features: &[f64; 576]) -> [f64; 614] {
    let mut similarity = lent_similarity();
    let _ = similarities::similarity(features, 36, &mut similarity);
    similarity
}

fn novelty_of(similarity: &[f64; 614]) -> [f64; 38] {
    let pairs = &similarity[..];
    let mut novelty = lent_novelty();
    let _ = novelties::novelty(&pairs[0..612], 36, &mut novelty);
    novelty
}

fn analysed() -> State {
    let features = new_rows(0);
    let similarity = similarity_of(&features);
    let novelty = novelty_of(&similarity);
    State {
        features,
        similarity,
        novelty,
    }
}

// 1 where slot i is of a pair that touches none of rows a up to b, and x and y differ.
fn untouched(i: usize, a: usize, b: usize, x: f64, y: f64) -> usize
    ensures { result ≤ 1 }
{
    let own = run_cases::differ(i / 17, a, b, x, y);
    let other = run_cases::differ(i / 17 + i % 17, a, b, x, y);
    own.min(other)
}

// How many slots of pairs that touch none of rows a up to b differ.
fn untouched_changed(old: &[f64; 614], new: &[f64; 614], a: usize, b: usize) -> usize {
    let mut count = 0;
    for i in 0..612 {
        count += untouched(i, a, b, old[i], new[i]);
    }
    count
}

fn named(rt: &impl Print, first: usize, past: usize) {
    run_show::count(rt, first);
    run_show::words(rt, b" to");
    run_show::count(rt, past);
}

// A patch that wrote no slots, as where it refuses.
const NONE: PatchedFeatures = PatchedFeatures {
    similarity_first: 0,
    similarity_past: 0,
    novelty_first: 0,
    novelty_past: 0,
};

// The answer, and how many slots of the similarity and of the novelty changed outside what it names.
fn told(
    rt: &impl Print,
    answer: Result<PatchedFeatures, Refusal>,
    old: &[f64; 614],
    similarity: &[f64; 614],
    old_novelty: &[f64; 38],
    novelty: &[f64; 38],
) {
    let wrote = answer.unwrap_or(NONE);
    told_alone(rt, answer);
    run_show::words(rt, b", similarity changed");
    run_show::count(rt, run_cases::changed(old, similarity, 0, 0));
    run_show::words(rt, b", changed outside");
    run_show::count(
        rt,
        run_cases::changed(
            old,
            similarity,
            wrote.similarity_first,
            wrote.similarity_past,
        ),
    );
    run_show::count(
        rt,
        run_cases::changed(
            old_novelty,
            novelty,
            wrote.novelty_first,
            wrote.novelty_past,
        ),
    );
}

// How many slots of each curve differ from an analysis from nothing.
fn compared(rt: &impl Print, features: &[f64; 576], similarity: &[f64; 614], novelty: &[f64; 38]) {
    let fresh_similarity = similarity_of(features);
    let fresh_novelty = novelty_of(&fresh_similarity);
    run_show::words(rt, b", not fresh");
    run_show::count(rt, run_cases::changed(&fresh_similarity, similarity, 0, 0));
    run_show::count(rt, run_cases::changed(&fresh_novelty, novelty, 0, 0));
    run_show::end(rt);
}

// One patch and its line; rows a up to b are those that it should replace, 0 and 0 where it should replace none.
fn step(rt: &impl Print, was: State, start: usize, new: &[f64], a: usize, b: usize) -> State
    requires { (a ≤ b) × (b ≤ 36) }
{
    let first = a * 16;
    let past = b * 16;
    let old_features = was.features;
    let old_similarity = was.similarity;
    let old_novelty = was.novelty;
    let mut features = was.features;
    let mut similarity = was.similarity;
    let mut novelty = was.novelty;
    let answer = patch_features::patch_features(
        &mut features,
        36,
        start,
        new,
        &mut similarity,
        &mut novelty,
    );
    told(
        rt,
        answer,
        &old_similarity,
        &similarity,
        &old_novelty,
        &novelty,
    );
    run_show::words(rt, b", untouched");
    run_show::count(rt, untouched_changed(&old_similarity, &similarity, a, b));
    run_show::words(rt, b", not new");
    run_show::count(rt, run_cases::changed(&features[first..past], new, 0, 0));
    run_show::words(rt, b", features");
    run_show::count(
        rt,
        run_cases::changed(&old_features, &features, first, past),
    );
    compared(rt, &features, &similarity, &novelty);
    State {
        features,
        similarity,
        novelty,
    }
}

// The rows of a step: 100: zeros, 101: a NaN before zeros, else the features of that seed.
fn new_rows(seed: usize) -> [f64; 576] {
    let mut rows = [0.0f64; 576];
    if seed == 100 {
        return rows;
    }
    if seed == 101 {
        rows[0] = 0.0f64 / 0.0;
        return rows;
    }
    fill(&mut rows, (seed % 100) as u32);
    rows
}

fn steps(rt: &impl Print, was: State) -> State {
    each_step(
        rt,
        was,
        "step 0:|0|16|0|1|1|row 0
step 1:|35|16|35|36|2|row 35
step 2:|18|16|18|19|3|row 18
step 3:|10|48|10|13|4|rows 10 to 12
step 4:|0|576|0|36|5|whole track
step 5:|20|256|20|36|6|rows 20 to 35
step 6:|0|0|0|0|0|none at 0
step 7:|18|0|0|0|0|none at 18
step 8:|36|0|0|0|0|none at 36
step 9:|37|0|0|0|0|none at 37
step 10:|3|32|3|5|7|rows 3 and 4
step 11:|5|32|5|7|8|rows 5 and 6
step 12:|5|64|5|9|9|rows 5 to 8
step 13:|7|64|7|11|10|rows 7 to 10
step 14:|7|64|7|11|10|rows 7 to 10 again
step 15:|1|16|1|2|11|row 1
step 16:|37|16|0|0|1|start 37
step 17:|2|16|2|3|12|row 2
step 18:|5|24|0|0|13|half a row
step 19:|35|32|0|0|14|past the end
step 20:|20|16|20|21|100|row 20 of zeros
step 21:|36|16|0|0|15|at the row count
step 22:|8|16|0|0|101|no number
step 23:|33|16|33|34|16|row 33\n",
    )
}

fn each_step(rt: &impl Print, was: State, cases: &str) -> State {
    let mut state = was;
    for line in cases.lines() {
        state = step_of(rt, state, line.as_bytes());
    }
    state
}

// From row (1) on so many new slots (2), which should replace the rows (3) up to (4); the new rows are those of seed (5).
fn step_of(rt: &impl Print, was: State, line: &[u8]) -> State {
    let b = run_cases::column_within(line, 4, 36);
    let a = run_cases::column_within(line, 3, b);
    let n = run_cases::column_within(line, 2, 576);
    let rows = new_rows(run_cases::column(line, 5));
    run_show::words(rt, run_cases::part(line, b'|', 0));
    step(rt, was, run_cases::column(line, 1), &rows[0..n], a, b)
}

fn names_none(answer: Result<PatchedFeatures, Refusal>) -> bool {
    match answer {
        Ok(wrote) => {
            wrote.similarity_first == 0
                && wrote.similarity_past == 0
                && wrote.novelty_first == 0
                && wrote.novelty_past == 0
        }
        Err(_) => false,
    }
}

// Prints the place where an empty patch there names 0 to 0 and leaves all as it was.
fn none_at(rt: &impl Print, was: State, start: usize) {
    let mut features = was.features;
    let mut similarity = was.similarity;
    let mut novelty = was.novelty;
    let answer = patch_features::patch_features(
        &mut features,
        36,
        start,
        &[],
        &mut similarity,
        &mut novelty,
    );
    if names_none(answer) && unchanged(was, features, similarity, novelty) {
        run_show::count(rt, start);
    }
}

fn unchanged(was: State, features: [f64; 576], similarity: [f64; 614], novelty: [f64; 38]) -> bool {
    let old_features = was.features;
    let old_similarity = was.similarity;
    let old_novelty = was.novelty;
    if run_cases::changed(&old_features, &features, 0, 0) != 0 {
        return false;
    }
    if run_cases::changed(&old_similarity, &similarity, 0, 0) != 0 {
        return false;
    }
    run_cases::changed(&old_novelty, &novelty, 0, 0) == 0
}

fn none_anywhere(rt: &impl Print, was: State) {
    run_show::words(rt, b"none, nothing changed at");
    for start in 0..37 {
        none_at(rt, was, start);
    }
    run_show::end(rt);
}

fn told_alone(rt: &impl Print, answer: Result<PatchedFeatures, Refusal>) {
    match answer {
        Ok(wrote) => {
            run_show::words(rt, b" wrote");
            named(rt, wrote.similarity_first, wrote.similarity_past);
            run_show::words(rt, b" and");
            named(rt, wrote.novelty_first, wrote.novelty_past);
        }
        Err(refusal) => run_show::refused(rt, refusal),
    }
}

// One row, its first old and new features (6) and (7), with lent curves that are not its own and begin with (8) and (9). (1) rows, start (2), (3) new
// slots, and so many slots of each curve: (4) and (5). Shown are the answer, how many features changed, and the novelty with its slot that is not
// lent.
fn line(rt: &impl Print, line: &[u8]) {
    run_show::words(rt, run_cases::part(line, b'|', 0));
    let new = row(value(line, 7));
    patched(
        rt,
        line,
        row(value(line, 6)),
        &new[0..run_cases::column_within(line, 3, 16)],
        pairs(value(line, 8)),
        [value(line, 9), 0.0],
    );
}

// The value that a column has as its one byte.
fn value(line: &[u8], k: usize) -> f64 {
    let text = run_cases::part(line, b'|', k);
    if text.len() == 0 {
        return 0.0;
    }
    run_cases::value(text[0])
}

fn patched(
    rt: &impl Print,
    line: &[u8],
    was: [f64; 16],
    new: &[f64],
    was_pairs: [f64; 18],
    was_novelty: [f64; 2],
) {
    let mut features = was;
    let mut similarity = was_pairs;
    let mut novelty = was_novelty;
    told_alone(
        rt,
        patch_features::patch_features(
            &mut features,
            run_cases::column(line, 1),
            run_cases::column(line, 2),
            new,
            &mut similarity[0..run_cases::column_within(line, 4, 18)],
            &mut novelty[0..run_cases::column_within(line, 5, 2)],
        ),
    );
    left(rt, &was, &features, &novelty);
}

// A row of ones but for its first value.
fn row(first: f64) -> [f64; 16] {
    let mut values = [1.0f64; 16];
    values[0] = first;
    values
}

// The similarity's slots but for the first, and one more.
fn pairs(first: f64) -> [f64; 18] {
    let mut values = [0.0f64; 18];
    values[0] = first;
    values[17] = 9.0;
    values
}

fn left(rt: &impl Print, was: &[f64; 16], features: &[f64; 16], novelty: &[f64; 2]) {
    run_show::words(rt, b", features changed");
    run_show::count(rt, run_cases::changed(was, features, 0, 0));
    run_show::words(rt, b", novelty");
    run_show::floats(rt, novelty);
    run_show::end(rt);
}

fn each_line(rt: &impl Print, cases: &str) {
    for text in cases.lines() {
        line(rt, text.as_bytes());
    }
}

fn lines(rt: &impl Print) {
    each_line(
        rt,
        "room 0:|1|0|16|17|1|1|1|0|h|one row
room 1:|1|0|16|18|2|1|1|0|h|more room
room 2:|1|0|16|16|1|1|1|0|h|short similarity
room 3:|1|0|16|17|0|1|1|0|h|short novelty
room 4:|1|0|0|17|0|1|1|0|h|short novelty, no rows
room 5:|50001|0|16|17|1|1|1|0|h|50,001 rows
room 6:|50000|0|16|17|1|1|1|0|h|50,000 rows
room 7:|1|2|0|17|1|1|1|0|h|no rows at 2
room 8:|1|1|16|17|1|1|1|0|h|a row at 1
room 9:|1|1|0|17|1|1|1|0|h|no rows at 1
value 0:|1|0|16|17|1|1|1|1|h|similarity 1
value 1:|1|0|16|17|1|1|1|v|h|similarity above 1
value 2:|1|0|16|17|1|1|1|w|h|similarity below -1
value 3:|1|0|16|17|1|1|1|n|h|similarity no number
value 4:|1|0|16|17|1|1|1|0|b|novelty 2^150
value 5:|1|0|16|17|1|1|1|0|a|novelty above 2^150
value 6:|1|0|16|17|1|1|1|0|n|novelty no number
value 7:|1|0|16|17|1|n|1|0|h|old no number
value 8:|1|0|16|17|1|c|1|0|h|old -2^150
value 9:|1|0|16|17|1|d|1|0|h|old below -2^150
value 10:|1|0|16|17|1|1|n|0|h|new no number
value 11:|1|0|16|17|1|1|b|0|h|new 2^150
value 12:|1|0|16|17|1|1|a|0|h|new above 2^150\n",
    );
}

fn main(rt: HostRuntime) {
    let s = steps(&rt, analysed());
    none_anywhere(&rt, s);
    lines(&rt);
}
