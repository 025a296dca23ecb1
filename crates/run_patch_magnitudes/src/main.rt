// Repairs of a track of 30 rows of 2 bins, one after the other, refused and empty ones among them. After each, the curves are compared with
// those of an analysis from nothing of the edited rows, and with those before it outside the slots that the answer names: all 32 slots of
// each curve must be alike, the two behind the curve too, none may have changed outside, and the rows replaced must be the new ones. The file
// stdout holds what must come out.
//
// The cases stand in tables, one to a line, with bars between the columns: the label, the numbers and texts that the function of that name takes, where
// (1) is column 1, and what they are about.
#![tactic(auto)]

ghost use Rattle.std.specs.Prelude.{◌≤◌};

use numbers::Refusal;
use patch_magnitudes::Patched;

#[derive(Clone, Copy)]
struct State {
    magnitudes: [f32; 60],
    flux: [f64; 32],
    threshold: [f64; 32],
}

fn main(rt: HostRuntime) {
    let s = steps(&rt, analysed());
    none_anywhere(&rt, s);
    lines(&rt);
    widest(&rt);
}

// Slot 31 is no number: slots beyond the curve are not read.
fn lent() -> [f64; 32] {
    let mut curve = [9.0f64; 32];
    curve[31] = 0.0f64 / 0.0;
    curve
}

// An analysis from nothing: the flux of the rows, and the threshold of it.
fn flux_of(magnitudes: &[f32; 60]) -> [f64; 32] {
    let mut flux = lent();
    let _ = flux::spectral_flux(magnitudes, 30, 2, &mut flux);
    flux
}

fn threshold_of(flux: &[f64; 32]) -> [f64; 32] {
    let curve = &flux[..];
    let mut threshold = lent();
    let mut work = [0.0f64; 21];
    let _ = threshold::adaptive_threshold(&curve[0..30], &mut threshold, &mut work);
    threshold
}

fn analysed() -> State {
    let magnitudes = track();
    let flux = flux_of(&magnitudes);
    let threshold = threshold_of(&flux);
    State {
        magnitudes,
        flux,
        threshold,
    }
}

fn track() -> [f32; 60] {
    let mut magnitudes = [0.0f32; 60];
    spell(
        b"CBEAAACAZgEABAEAABAEABrh]rCBABCAAABEECvkCBBBACECECAA][EEAACC",
        &mut magnitudes,
    );
    magnitudes
}

// A magnitude of a byte: its distance from A in quarters, but for what is far from 0.
fn spelled(byte: u8) -> f32 {
    match byte {
        b'1' => 85070591730234615865843651857942052864.0, // 2^126
        b'2' => 85070601871439417999505073614676459520.0, // the next above it
        b'3' => -1.0f32 / 0.0,
        b'z' => 1.0f32 / 0.0,
        _ => (byte as f32 - 65.0) / 4.0,
    }
}

fn spell(text: &[u8], values: &mut [f32]) {
    for (value, &byte) in values.iter_mut().zip(text) {
        *value = spelled(byte);
    }
}

// ---- what has changed

// 1 where slot i lies outside first up to past and is not the same.
fn differ_outside(i: usize, first: usize, past: usize, same: bool) -> usize
    ensures { result ≤ 1 }
{
    if !same && (i < first || past <= i) {
        1
    } else {
        0
    }
}

// How many magnitudes differ outside first up to past.
fn magnitudes_changed(old: &[f32], new: &[f32], first: usize, past: usize) -> usize {
    let most = old.len().min(new.len());
    let mut count = 0;
    for i in 0..most {
        let same = old[i] == new[i];
        count += differ_outside(i, first, past, same);
    }
    count
}

// How many slots of a curve differ outside first up to past.
fn changed(old: &[f64; 32], new: &[f64; 32], first: usize, past: usize) -> usize {
    run_cases::changed(old, new, first, past)
}

fn named(rt: &impl Print, first: usize, past: usize) {
    run_show::count(rt, first);
    run_show::words(rt, b" to");
    run_show::count(rt, past);
}

// A patch that wrote no slots, as where it refuses.
const NONE: Patched = Patched {
    flux_first: 0,
    flux_past: 0,
    threshold_first: 0,
    threshold_past: 0,
};

// The answer, and how many slots of the flux and of the threshold changed outside what it names.
fn told(
    rt: &impl Print,
    answer: Result<Patched, Refusal>,
    old: &[f64; 32],
    flux: &[f64; 32],
    old_threshold: &[f64; 32],
    threshold: &[f64; 32],
) {
    let wrote = answer.unwrap_or(NONE);
    told_alone(rt, answer);
    run_show::words(rt, b", flux changed");
    run_show::count(rt, changed(old, flux, 0, 0));
    run_show::words(rt, b", changed outside");
    run_show::count(rt, changed(old, flux, wrote.flux_first, wrote.flux_past));
    run_show::count(
        rt,
        changed(
            old_threshold,
            threshold,
            wrote.threshold_first,
            wrote.threshold_past,
        ),
    );
}

// How many magnitudes changed outside the rows replaced.
fn kept(rt: &impl Print, old: &[f32; 60], magnitudes: &[f32; 60], at: usize, past: usize) {
    run_show::words(rt, b", magnitudes");
    run_show::count(rt, magnitudes_changed(old, magnitudes, at, past));
}

// How many slots of each curve differ from an analysis from nothing.
fn compared(rt: &impl Print, magnitudes: &[f32; 60], flux: &[f64; 32], threshold: &[f64; 32]) {
    let fresh = flux_of(magnitudes);
    run_show::words(rt, b", not fresh");
    run_show::count(rt, changed(&fresh, flux, 0, 0));
    let fresh_threshold = threshold_of(&fresh);
    run_show::count(rt, changed(&fresh_threshold, threshold, 0, 0));
    run_show::end(rt);
}

// ---- steps

// One patch and its line; `at` and `past` are the slots of the rows that it replaces, 0 and 0 where it should replace none.
fn step(rt: &impl Print, was: State, start: usize, new: &[f32], at: usize, past: usize) -> State
    requires { (at ≤ past) × (past ≤ 60) }
{
    let old_magnitudes = was.magnitudes;
    let old_flux = was.flux;
    let old_threshold = was.threshold;
    let mut magnitudes = was.magnitudes;
    let mut flux = was.flux;
    let mut threshold = was.threshold;
    let mut work = [0.0f64; 21];
    let answer = patch_magnitudes::patch_magnitudes(
        &mut magnitudes,
        30,
        2,
        start,
        new,
        &mut flux,
        &mut threshold,
        &mut work,
    );
    told(rt, answer, &old_flux, &flux, &old_threshold, &threshold);
    run_show::words(rt, b", not new");
    run_show::count(rt, magnitudes_changed(&magnitudes[at..past], new, 0, 0));
    kept(rt, &old_magnitudes, &magnitudes, at, past);
    compared(rt, &magnitudes, &flux, &threshold);
    State {
        magnitudes,
        flux,
        threshold,
    }
}

// From row (1) on the rows that (2) spells; the slots (3) up to (4) are those of the rows that it should replace.
fn step_of(rt: &impl Print, was: State, line: &[u8]) -> State {
    let text = run_cases::part(line, b'|', 2);
    let past = run_cases::column_within(line, 4, 60);
    let at = run_cases::column_within(line, 3, past);
    let mut values = [0.0f32; 60];
    spell(text, &mut values);
    run_show::words(rt, run_cases::part(line, b'|', 0));
    step(
        rt,
        was,
        run_cases::column(line, 1),
        &values[0..text.len().min(60)],
        at,
        past,
    )
}

fn each_step(rt: &impl Print, was: State, cases: &str) -> State {
    let mut state = was;
    for line in cases.lines() {
        state = step_of(rt, state, line.as_bytes());
    }
    state
}

fn steps(rt: &impl Print, was: State) -> State {
    each_step(
        rt,
        was,
        "step 0:|0|Bm|0|2|row 0
step 1:|29|AA|58|60|row 29
step 2:|14|Bm|28|30|row 14
step 3:|10|BGA``B|20|26|rows 10 to 12
step 4:|0|ADMCAADMCAADMCAAdmCAADMCAADMCAADMCaadMCAADMCAADMCAaDMCAADMCA|0|60|whole track
step 5:|20|mGGmA`BABAG`B`mAmBAB|40|60|rows 20 to 29
step 6:|0||0|0|none at 0
step 7:|1||0|0|none at 1
step 8:|14||0|0|none at 14
step 9:|29||0|0|none at 29
step 10:|30||0|0|none at 30
step 11:|31||0|0|none at 31
step 12:|3|mA`G|6|10|rows 3 and 4
step 13:|5|GB`A|10|14|rows 5 and 6
step 14:|5|BG`BBAAB|10|18|rows 5 to 8
step 15:|7|`mGGBBAG|14|22|rows 7 to 10
step 16:|7|`mGGBBAG|14|22|rows 7 to 10 again
step 17:|1|mA|2|4|row 1
step 18:|31|`m|0|0|start 31
step 19:|2|`G|4|6|row 2
step 20:|5|GGE|0|0|half a row
step 21:|29|AmmB|0|0|past the end
step 22:|28|BA|56|58|row 28
step 23:|30|G`|0|0|at the row count
step 24:|8|Ez|0|0|infinite
step 25:|17|m`|34|36|row 17\n",
    )
}

// ---- empty patches

fn names_none(answer: Result<Patched, Refusal>) -> bool {
    match answer {
        Ok(wrote) => {
            wrote.flux_first == 0
                && wrote.flux_past == 0
                && wrote.threshold_first == 0
                && wrote.threshold_past == 0
        }
        Err(_) => false,
    }
}

// Prints the place where an empty patch there names 0 to 0 and leaves all as it was.
fn none_at(rt: &impl Print, was: State, start: usize) {
    let mut magnitudes = was.magnitudes;
    let mut flux = was.flux;
    let mut threshold = was.threshold;
    let mut work = [0.0f64; 21];
    let answer = patch_magnitudes::patch_magnitudes(
        &mut magnitudes,
        30,
        2,
        start,
        &[],
        &mut flux,
        &mut threshold,
        &mut work,
    );
    if names_none(answer) && unchanged(was, magnitudes, flux, threshold) {
        run_show::count(rt, start);
    }
}

fn unchanged(was: State, magnitudes: [f32; 60], flux: [f64; 32], threshold: [f64; 32]) -> bool {
    let old_magnitudes = was.magnitudes;
    let old_flux = was.flux;
    let old_threshold = was.threshold;
    if magnitudes_changed(&old_magnitudes, &magnitudes, 0, 0) != 0 {
        return false;
    }
    if changed(&old_flux, &flux, 0, 0) != 0 {
        return false;
    }
    changed(&old_threshold, &threshold, 0, 0) == 0
}

fn none_anywhere(rt: &impl Print, was: State) {
    run_show::words(rt, b"none, nothing changed at");
    for start in 0..31 {
        none_at(rt, was, start);
    }
    run_show::end(rt);
}

// ---- rooms and values

fn told_alone(rt: &impl Print, answer: Result<Patched, Refusal>) {
    match answer {
        Ok(wrote) => {
            run_show::words(rt, b" wrote");
            named(rt, wrote.flux_first, wrote.flux_past);
            run_show::words(rt, b" and");
            named(rt, wrote.threshold_first, wrote.threshold_past);
        }
        Err(refusal) => run_show::refused(rt, refusal),
    }
}

// A track of 3 rows of 1 bin, with lent curves that are not its own: the rows that (4) spells and the new one that (5) spells, the flux (6) and the
// threshold (7). (1) rows, (2) bins, start (3), (8) new slots, and so many slots lent: (9) of the flux, (10) of the threshold and (11) of the work
// slice. Shown are the answer, how many rows changed, the four slots that the flux is lent from, and the two behind the three that are sorted in.
fn line(rt: &impl Print, line: &[u8]) {
    run_show::words(rt, run_cases::part(line, b'|', 0));
    let was = rows_of(run_cases::part(line, b'|', 4));
    let new = rows_of(run_cases::part(line, b'|', 5));
    patched(
        rt,
        line,
        was,
        &new[0..run_cases::column_within(line, 8, 1)],
        curve_of(run_cases::part(line, b'|', 6)),
        curve_of(run_cases::part(line, b'|', 7)),
    );
}

fn rows_of(text: &[u8]) -> [f32; 3] {
    let mut rows = [0.0f32; 3];
    spell(text, &mut rows);
    rows
}

fn curve_of(text: &[u8]) -> [f64; 4] {
    let mut curve = [0.0f64; 4];
    run_cases::spell(text, &mut curve);
    curve
}

fn patched(
    rt: &impl Print,
    line: &[u8],
    was: [f32; 3],
    new: &[f32],
    was_flux: [f64; 4],
    was_threshold: [f64; 4],
) {
    let mut magnitudes = was;
    let mut flux = was_flux;
    let mut threshold = was_threshold;
    let mut work = [7.0f64; 5];
    told_alone(
        rt,
        patch_magnitudes::patch_magnitudes(
            &mut magnitudes,
            run_cases::column(line, 1),
            run_cases::column(line, 2),
            run_cases::column(line, 3),
            new,
            &mut flux[0..run_cases::column_within(line, 9, 4)],
            &mut threshold[0..run_cases::column_within(line, 10, 4)],
            &mut work[0..run_cases::column_within(line, 11, 5)],
        ),
    );
    left(rt, &was, &magnitudes, &flux, &work);
}

fn left(rt: &impl Print, was: &[f32; 3], magnitudes: &[f32; 3], flux: &[f64; 4], work: &[f64; 5]) {
    run_show::words(rt, b", rows changed");
    run_show::count(rt, magnitudes_changed(was, magnitudes, 0, 0));
    run_show::words(rt, b", flux");
    run_show::floats(rt, flux);
    run_show::words(rt, b", work behind");
    run_show::float(rt, work[3]);
    run_show::float(rt, work[4]);
    run_show::end(rt);
}

fn each_line(rt: &impl Print, cases: &str) {
    for text in cases.lines() {
        line(rt, text.as_bytes());
    }
}

fn lines(rt: &impl Print) {
    each_line(
        rt,
        "room 0:|3|1|1|AAU|I|000n|0000|1|3|3|3|row 1
room 1:|3|1|1|AAU|I|000n|0000|1|4|4|4|more room
room 2:|3|1|1|AAU|I|000n|0000|1|2|3|3|short flux
room 3:|3|1|1|AAU|I|000n|0000|1|3|2|3|short threshold
room 4:|3|1|1|AAU|I|000n|0000|1|3|3|2|short work
room 5:|3|1|1|AAU|I|000n|0000|0|3|3|2|short work, no rows
room 6:|3|0|1|AAU|I|000n|0000|1|2|3|3|no bins
room 7:|3|4097|1|AAU|I|000n|0000|1|2|3|3|4,097 bins
room 8:|1048577|1|1|AAU|I|000n|0000|1|2|3|3|1,048,577 rows
room 9:|1048576|1|1|AAU|I|000n|0000|1|2|3|3|1,048,576 rows
room 10:|3|1|4|AAU|I|000n|0000|0|2|3|3|no rows at 4
room 11:|2|1|1|AAU|I|000n|0000|1|1|3|3|two rows of three
room 12:|3|1|3|AAU|I|000n|0000|1|1|3|3|a row at 3
room 13:|3|1|3|AAU|I|000n|0000|0|3|3|3|no rows at 3
value 0:|3|1|1|AAU|I|n00n|0000|1|3|3|5|flux no number
value 1:|3|1|1|AAU|I|b00n|0000|1|3|3|5|flux 2^150
value 2:|3|1|1|AAU|I|a00n|0000|1|3|3|5|flux above 2^150
value 3:|3|1|1|AAU|1|000n|0000|1|3|3|5|new 2^126
value 4:|3|1|1|AAU|2|000n|0000|1|3|3|5|new above 2^126
value 5:|3|1|1|AAU|3|000n|0000|1|3|3|5|new minus infinity
value 6:|3|1|1|AAU|I|000n|0000|1|3|3|5|fine
value 7:|3|1|1|AAU|I|000n|n000|1|3|3|5|threshold no number
value 8:|3|1|1|AAU|I|000n|c000|1|3|3|5|threshold -2^150
value 9:|3|1|1|AAU|I|000n|d000|1|3|3|5|threshold below -2^150
value 10:|3|1|1|AzU|I|000n|0000|1|3|3|5|old infinite
value 11:|3|1|1|A1U|I|000n|0000|1|3|3|5|old 2^126
value 12:|3|1|1|A2U|I|000n|0000|1|3|3|5|old above 2^126\n",
    );
}

// ---- the widest rows

// Two rows of 4,096 bins, the second replaced by ones.
fn widest(rt: &impl Print) {
    let mut magnitudes = [0.0f32; 8192];
    let new = [1.0f32; 4096];
    let mut flux = [0.0f64; 2];
    let mut threshold = [0.0f64; 2];
    let mut work = [0.0f64; 2];
    run_show::words(rt, b"4,096 bins:");
    told_alone(
        rt,
        patch_magnitudes::patch_magnitudes(
            &mut magnitudes,
            2,
            4096,
            1,
            &new,
            &mut flux,
            &mut threshold,
            &mut work,
        ),
    );
    wide(rt, &magnitudes, &new, &flux);
}

fn wide(rt: &impl Print, magnitudes: &[f32; 8192], new: &[f32; 4096], flux: &[f64; 2]) {
    let rows = &magnitudes[..];
    run_show::words(rt, b", not new");
    run_show::count(rt, magnitudes_changed(&rows[4096..8192], new, 0, 0));
    run_show::words(rt, b", flux");
    run_show::floats(rt, flux);
    run_show::end(rt);
}
