// Similarity, novelty, boundaries and their times, of up to twenty feature rows.
ghost use Rattle.std.specs.Prelude.{◌≤◌};

use crate::{inputs, lines};
use sections::Sections;

fn similar(rt: &impl Print, features: &[f64], rows: usize, s: u64)
    requires { rows ≤ 20 }
{
    let mut similarity = [0.0f64; 340];
    let answer = similarities::similarity(features, rows, &mut similarity);
    lines::floats(rt, b"similarity", answer, &similarity[0..34]);
    novel(rt, &similarity[0..17 * rows], rows, s);
}

fn novel(rt: &impl Print, similarity: &[f64], rows: usize, s: u64)
    requires { rows ≤ 20 }
{
    let mut novelty = [0.0f64; 20];
    let answer = novelties::novelty(similarity, rows, &mut novelty);
    lines::floats(rt, b"novelty", answer, &novelty[0..rows]);
    sections_of(rt, &novelty[0..rows], s);
}

// Frames of a quarter of a second to four seconds.
fn length_of(s: u64) -> u64 {
    12000 * (s % 16 + 1)
}

// What is printed where no sections are told.
const NO_SECTIONS: Sections = Sections {
    sections: 0,
    count: 0,
    confidence: 0.0,
};

fn sections_of(rt: &impl Print, novelty: &[f64], s: u64) {
    let mut rows = [0u32; 60];
    let mut work = [0.0f64; 60];
    let length = length_of(s);
    let answer = sections::boundaries(
        novelty,
        length,
        48000,
        inputs::up_to_three(s) + 1,
        &mut rows,
        &mut work,
    );
    let told = answer.unwrap_or(NO_SECTIONS);
    let listed = lines::first(&rows, told.count);
    run_show::words(rt, b"sections");
    run_show::outcome(rt, &answer);
    run_show::count(rt, told.sections);
    run_show::float(rt, told.confidence);
    run_show::smalls(rt, listed);
    run_show::end(rt);
    times(rt, listed, length);
}

fn times(rt: &impl Print, rows: &[u32], length: u64) {
    let mut ms = [0.0f64; 60];
    let answer = sections::boundary_times(rows, length, 48000, &mut ms);
    lines::floats(rt, b"first time", answer, &ms[0..1]);
}

// A novelty curve that is no row's: more peaks than sections.
fn given(rt: &impl Print, s: u64) {
    let mut novelty = [0.0f64; 40];
    inputs::fill(&mut novelty, s);
    sections_of(rt, &novelty, s);
}

pub fn round(rt: &impl Print, s: u64) {
    let features = inputs::features(s);
    let rows = inputs::up_to_twenty(inputs::next(s));
    similar(rt, &features[0..16 * rows], rows, s);
    given(rt, s);
}
