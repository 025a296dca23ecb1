// What the reporting program says of an array that nothing refuses: one analysis of the flux of its rows, and the six lines of it (crate report_lines).
//
// Document 01, The reporting program: rate 48,000, the default options, at most 8,000 rows. Inner calls all. The analysis is lent room from one
// function to the next: its curves first, then its lists.
#![tactic(auto)]

ghost use Rattle.std.specs.Prelude.{◌≡◌, true, ◌≤◌, length};
ghost use Rattle.numbers.specs.Limits.{value_fine};
ghost use Rattle.numbers.specs.Lists.{every};
ghost use Rattle.report.specs.Input.{most_reported};
ghost use Rattle.report_text.specs.Text.{PutWithin};
ghost use Rattle.report_lines.specs.Lines.{text_room};
ghost use Rattle.report_answer.specs.Reports.{report_of};
ghost use Rattle.report_answer.specs.Inner.{most_lags, CurvesLent, ListsLent};

use analysis::analyse_envelope;
use options::TempoOpts;
use report::MOST_REPORTED;
use report_lines::put_lines;

// samples a second
const RATE: u32 = 48_000;

// a slot for each lag from 38 to 375
const LAGS: usize = 338;

// ---- room

// Inner: a slot for each row.
pub fn curve_room() -> [f64; MOST_REPORTED]
    ensures { length result ≡ most_reported }
{
    [0.0; MOST_REPORTED]
}

fn list_room() -> [u32; MOST_REPORTED]
    ensures { length result ≡ most_reported }
{
    [0; MOST_REPORTED]
}

fn lag_room() -> [f64; LAGS]
    ensures { length result ≡ most_lags }
{
    [0.0; LAGS]
}

// ---- the analysis

fn put_over(
    flux: &[f64],
    threshold: &mut [f64],
    onsets: &mut [u32],
    clarity: &mut [f64],
    weight: &mut [f64],
    window_clarity: &mut [f64],
    window_weight: &mut [f64],
    score: &mut [f64],
    back: &mut [u32],
    beats: &mut [u32],
    downbeats: &mut [u32],
    work: &mut [f64],
    bytes: &mut [u8],
) -> usize
    requires flux_len_bound { (length flux.now ≤ most_reported) × (every value_fine flux.now ≡ true) × (text_room ≤ length bytes.old) }
    requires curves_lent { CurvesLent threshold.old clarity.old weight.old window_clarity.old window_weight.old score.old work.old }
    requires lists_lent { ListsLent onsets.old back.old beats.old downbeats.old }
    ensures { PutWithin bytes.old 0 (report_of flux.now) text_room result bytes.new }
{
    let answer = analyse_envelope(
        flux,
        RATE,
        TempoOpts::new(),
        threshold,
        onsets,
        clarity,
        weight,
        window_clarity,
        window_weight,
        score,
        back,
        beats,
        downbeats,
        work,
    )
    .unwrap();
    put_lines(answer, onsets, beats, downbeats, bytes)
}

fn put_with_curves(
    flux: &[f64],
    threshold: &mut [f64],
    clarity: &mut [f64],
    weight: &mut [f64],
    window_clarity: &mut [f64],
    window_weight: &mut [f64],
    score: &mut [f64],
    work: &mut [f64],
    bytes: &mut [u8],
) -> usize
    requires flux_len_bound { (length flux.now ≤ most_reported) × (every value_fine flux.now ≡ true) × (text_room ≤ length bytes.old) }
    requires curves_lent { CurvesLent threshold.old clarity.old weight.old window_clarity.old window_weight.old score.old work.old }
    ensures { PutWithin bytes.old 0 (report_of flux.now) text_room result bytes.new }
{
    let mut onsets = list_room();
    let mut back = list_room();
    let mut beats = list_room();
    let mut downbeats = list_room();
    put_over(
        flux,
        threshold,
        &mut onsets,
        clarity,
        weight,
        window_clarity,
        window_weight,
        score,
        &mut back,
        &mut beats,
        &mut downbeats,
        work,
        bytes,
    )
}

// Inner: puts the report of a flux into the first bytes and answers how many they are.
pub fn put_analysis(flux: &[f64], bytes: &mut [u8]) -> usize
    requires { (length flux.now ≤ most_reported) × (every value_fine flux.now ≡ true) × (text_room ≤ length bytes.old) }
    ensures { PutWithin bytes.old 0 (report_of flux.now) text_room result bytes.new }
{
    let mut threshold = curve_room();
    let mut clarity = lag_room();
    let mut weight = lag_room();
    let mut window_clarity = lag_room();
    let mut window_weight = lag_room();
    let mut score = curve_room();
    let mut work = lag_room();
    put_with_curves(
        flux,
        &mut threshold,
        &mut clarity,
        &mut weight,
        &mut window_clarity,
        &mut window_weight,
        &mut score,
        &mut work,
        bytes,
    )
}
