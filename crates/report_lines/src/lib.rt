// The six lines of an analysis, for the reporting program.
//
// Document 01, The reporting program: "Lines list frames or lags with one space between, or `none`, and stability as agreeing/windows." Inner calls all.
#![tactic(auto)]

ghost use Rattle.std.specs.Prelude.{◌≡◌, ◌≤◌, Ok, length};
ghost use Rattle.stability.specs.Answers.{agreeing_in, windows_in};
ghost use Rattle.track.specs.Analyses.{analysis_said};
ghost use Rattle.report_text.specs.Text.{PutWithin};
ghost use Rattle.report_lines.specs.Lines.{text_room, candidate_lags, lines_of, LagsFit, Listable};

use report_text::put_report;
use stability::Stability;
use tempo::Candidate;
use track::Analysis;

// The counts of a stability, as the text has them.
#[derive(Clone, Copy)]
struct Counts {
    agreeing: u32,
    windows: u32,
}

// The lags of the candidates: none is longer than a period.
fn lags_of(candidates: [Candidate; 3]) -> [u32; 3]
    requires { LagsFit candidates }
    ensures { result ≡ candidate_lags candidates }
{
    let a = candidates[0];
    let b = candidates[1];
    let c = candidates[2];
    [a.lag as u32, b.lag as u32, c.lag as u32]
}

fn counts_of(stability: Stability) -> Counts
    requires { (agreeing_in stability ≤ 4) × (windows_in stability ≤ 4) }
    ensures { result ≡ record { agreeing = agreeing_in stability; windows = windows_in stability } }
{
    match stability {
        Stability::None => Counts {
            agreeing: 0,
            windows: 0,
        },
        Stability::Share {
            agreeing,
            windows,
            ..
        } => Counts {
            agreeing: agreeing as u32,
            windows: windows as u32,
        },
    }
}

// Inner: puts the lines of an answer, whose lists the slices hold first, and answers how many bytes they are.
pub fn put_lines(
    answer: Analysis,
    onsets: &[u32],
    beats: &[u32],
    downbeats: &[u32],
    bytes: &mut [u8],
) -> usize
    requires { Listable (analysis_said (Ok answer)) onsets.now beats.now downbeats.now × (text_room ≤ length bytes.old) }
    ensures { PutWithin
        bytes.old 0 (lines_of (analysis_said (Ok answer)) onsets.now beats.now downbeats.now) text_room
        result bytes.new }
{
    let lags = lags_of(answer.candidates);
    let counts = counts_of(answer.stability);
    put_report(
        bytes,
        &onsets[..answer.onsets],
        &lags[..answer.count],
        &beats[..answer.beats],
        &downbeats[..answer.downbeats],
        counts.agreeing,
        counts.windows,
    )
}
