// The reporting program: reads an array from standard input and writes what its rows hold, or the number that refuses it.
//
// Document 01, The reporting program. What is put is proved to be the text of an input; that this input is the one on standard input, and that the
// text is then written, is not proved: runs show it.
#![tactic(auto)]

ghost use Rattle.std.specs.Prelude.{◌≡◌, ◌≤◌, length};
ghost use Rattle.report.specs.Input.{most_reported};
ghost use Rattle.report_text.specs.Text.{PutWithin};
ghost use Rattle.report_lines.specs.Lines.{text_room};
ghost use Rattle.report_io.specs.Answers.{text_of, Putable, TextAnswered};

use report::MOST_REPORTED;
use report_answer::curve_room;
use report_feed::Reading;

// bytes of an entry of a list, a space and ten digits
const ENTRY: usize = 11;

// bytes of the six lines where the lists of frames are empty: their words, four lags and the stability
const WORDS: usize = 139;

// for three lists with an entry for each row
const TEXT_ROOM: usize = ENTRY * (3 * MOST_REPORTED) + WORDS;

fn text_room() -> [u8; TEXT_ROOM]
    ensures { length result ≡ text_room }
{
    [0; TEXT_ROOM]
}

// Puts what is to be written of a reading, whose flux is lent: its refusal, or the report.
fn put_answer(reading: Reading, flux: &[f64], bytes: &mut [u8]) -> usize
    requires { (reading.number ≡ 0 → Putable reading flux.now) × (text_room ≤ length bytes.old) }
    ensures { PutWithin bytes.old 0 (text_of reading flux.now) text_room result bytes.new }
{
    if reading.number != 0 {
        return report_text::put_refusal(bytes, reading.number);
    }
    report_answer::put_analysis(&flux[..reading.rows], bytes)
}

// Reads standard input, to its end or until it is refused, and puts what is to be written of it.
fn answer(rt: &impl Input, flux: &mut [f64], bytes: &mut [u8]) -> usize
    requires { (most_reported ≤ length flux.old) × (text_room ≤ length bytes.old) }
    ensures { TextAnswered bytes.old result bytes.new }
{
    let reading = report_read::read_input(rt, flux);
    put_answer(reading, flux, bytes)
}

// Reads standard input, to its end or until it is refused, and writes the report of it, or its refusal. The programs end well either way: what was not
// written whole is told on standard error, and ./report, which writes the text itself, ends with a status.
pub fn report(rt: &(impl Input + Print + Eprint)) {
    let mut flux = curve_room();
    let mut text = text_room();
    let end = answer(rt, &mut flux, &mut text);
    if rt.write_all(&text[..end]).is_err() {
        let _ = eprintln!(rt; "report: the answer was not written whole");
    }
}
