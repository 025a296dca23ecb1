// A line of a label track, as bytes: written and read.
//
// Document 02, No. 6. Inner calls all; crate labels has the library's. A reader may be given any bytes, and seconds of any number of digits.
#![tactic(auto)]

ghost use Rattle.std.specs.Prelude.{◌≡◌, true, ◌+◌, ◌≤◌, min, length, drop};
ghost use Rattle.texts.specs.Texts.{Put};
ghost use Rattle.label_lines.specs.Lines.{label_line, line_fine, line_length, time_of};

// Above the time of every frame that is listed, in microseconds and in seconds: what is larger is told as this.
const PAST_TIMES: u64 = 10_000_000_000_000_000;

const PAST_SECONDS: u64 = 10_000_000_000;

// Inner: writes the line of a time from `at` on and answers the place behind it; every other byte stays.
pub fn put_line(out: &mut [u8], at: usize, u: u64) -> usize
    requires { at + length (label_line u) ≤ length out.old }
    ensures { Put out.old at (label_line u) result out.new }
{
    let e1 = label_seconds::put_seconds(out, at, u);
    let e2 = texts::put_byte(out, e1, b'\t');
    let e3 = label_seconds::put_seconds(out, e2, u);
    texts::put_words(out, e3, b"\tbeat\n")
}

// Inner: how many bytes the line of a time has.
pub fn line_length(u: u64) -> usize
    ensures { result ≡ length (label_line u) }
{
    2 * label_seconds::seconds_length(u) + 7
}

// Inner: whether a line of the form stands from `at` on.
pub fn line_fine(text: &[u8], at: usize) -> bool
    ensures { result ≡ line_fine (drop at text.now) }
{
    if !texts::plain_number(text, at) {
        return false;
    }
    let dot = texts::digits_end(text, at);
    if !texts::stands(text, dot, b".") {
        return false;
    }
    let end = texts::digits_end(text, dot + 1);
    if end - dot != 7 {
        return false;
    }
    if !texts::stands(text, end, b"\t") {
        return false;
    }
    if !texts::stands(text, end + 1, &text[at..end]) {
        return false;
    }
    texts::stands(text, end + 1 + (end - at), b"\tbeat\n")
}

// Inner: the place behind the line that stands from `at` on.
pub fn line_end(text: &[u8], at: usize) -> usize
    requires { line_fine (drop at text.now) ≡ true }
    ensures { (result ≡ at + line_length (drop at text.now)) × (result ≤ length text.now) }
{
    let count = texts::digits_end(text, at) - at;
    at + (2 * count + 21)
}

// Inner: the time of the line that stands from `at` on, held to a number above every listed frame's.
pub fn time_at(text: &[u8], at: usize) -> u64
    requires { line_fine (drop at text.now) ≡ true }
    ensures { result ≡ min (time_of (drop at text.now)) 10000000000000000 }
{
    let dot = texts::digits_end(text, at);
    let seconds = texts::number_at(text, at, PAST_SECONDS);
    let fraction = texts::number_at(text, dot + 1, PAST_SECONDS);
    let u = seconds * 1_000_000 + fraction;
    u.min(PAST_TIMES)
}
