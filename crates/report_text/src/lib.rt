// The lines that the reporting program writes, into lent bytes.
//
// Document 01, The reporting program. Inner calls all. Each call writes from `at` on and answers the place behind what it wrote; every other byte stays.
#![tactic(auto)]

ghost use Rattle.std.specs.Prelude.{◌+◌, ◌*◌, ◌≤◌, length};
ghost use Rattle.texts.specs.Decimals.{decimal};
ghost use Rattle.report_text.specs.Text.{spaced, numbers_text, list_text, line_text, share_text, stability_text, report_text, refusal_text};
ghost use Rattle.report_text.specs.Text.{PutWithin, number_room, spaced_room, numbers_room, list_room, line_room, share_room, stability_room, report_room};
ghost use Rattle.report_text.specs.Text.{most_candidates, refusal_room};

use texts::{put_byte, put_decimal, put_words};

// A number below 2 ^ 32 has at most ten digits.
fn put_number(out: &mut [u8], at: usize, n: u32) -> usize
    requires { at + number_room ≤ length out.old }
    ensures { PutWithin out.old at (decimal n) number_room result out.new }
{
    put_decimal(out, at, n as u64)
}

fn put_spaced(out: &mut [u8], at: usize, n: u32) -> usize
    requires { at + spaced_room ≤ length out.old }
    ensures { PutWithin out.old at (spaced n) spaced_room result out.new }
{
    let end = put_byte(out, at, b' ');
    put_number(out, end, n)
}

fn put_numbers(out: &mut [u8], at: usize, entries: &[u32]) -> usize
    requires { at + numbers_room (length entries.now) ≤ length out.old }
    ensures { PutWithin
        out.old at (numbers_text entries.now) (numbers_room (length entries.now))
        result out.new }
{
    let mut end = at;
    for &n in entries {
        end = put_spaced(out, end, n);
    }
    end
}

fn put_list(out: &mut [u8], at: usize, entries: &[u32]) -> usize
    requires { at + list_room (length entries.now) ≤ length out.old }
    ensures { PutWithin
        out.old at (list_text entries.now) (list_room (length entries.now))
        result out.new }
{
    if entries.len() == 0 {
        return put_words(out, at, b" none");
    }
    put_numbers(out, at, entries)
}

// A word, its list, and the end of the line.
fn put_line(out: &mut [u8], at: usize, word: &[u8], entries: &[u32]) -> usize
    requires { at + line_room (length word.now) (length entries.now) ≤ length out.old }
    ensures { PutWithin
        out.old at (line_text word.now entries.now) (line_room (length word.now) (length entries.now))
        result out.new }
{
    let words_end = put_words(out, at, word);
    let list_end = put_list(out, words_end, entries);
    put_byte(out, list_end, b'\n')
}

// agreeing/windows, or `none` where there are no windows
fn put_share(out: &mut [u8], at: usize, agreeing: u32, windows: u32) -> usize
    requires { at + share_room ≤ length out.old }
    ensures { PutWithin out.old at (share_text agreeing windows) share_room result out.new }
{
    if windows == 0 {
        return put_words(out, at, b" none");
    }
    let first_end = put_spaced(out, at, agreeing);
    let slash_end = put_byte(out, first_end, b'/');
    put_number(out, slash_end, windows)
}

fn put_stability(out: &mut [u8], at: usize, agreeing: u32, windows: u32) -> usize
    requires { at + stability_room ≤ length out.old }
    ensures { PutWithin out.old at (stability_text agreeing windows) stability_room result out.new }
{
    let words_end = put_words(out, at, b"stability");
    let share_end = put_share(out, words_end, agreeing, windows);
    put_byte(out, share_end, b'\n')
}

// Inner: writes a report into the first bytes and answers how many they are. No windows stand for no stability.
pub fn put_report(
    out: &mut [u8],
    onsets: &[u32],
    candidates: &[u32],
    beats: &[u32],
    downbeats: &[u32],
    agreeing: u32,
    windows: u32,
) -> usize
    requires candidates_len_bound { length candidates.now ≤ most_candidates }
    requires downbeats_in_bounds { report_room (length onsets.now) (length beats.now) (length downbeats.now) ≤ length out.old }
    ensures { PutWithin
        out.old 0
        (report_text onsets.now candidates.now beats.now downbeats.now agreeing windows)
        (report_room (length onsets.now) (length beats.now) (length downbeats.now))
        result out.new }
{
    let lag = &candidates[..candidates.len().min(1)];
    let a = put_line(out, 0, b"onsets", onsets);
    let b = put_line(out, a, b"lag", lag);
    let c = put_line(out, b, b"candidates", candidates);
    let d = put_line(out, c, b"beats", beats);
    let e = put_line(out, d, b"downbeats", downbeats);
    put_stability(out, e, agreeing, windows)
}

// Inner: writes the line of a refusal and answers how many bytes it has.
pub fn put_refusal(out: &mut [u8], number: u32) -> usize
    requires { refusal_room ≤ length out.old }
    ensures { PutWithin out.old 0 (refusal_text number) refusal_room result out.new }
{
    let words_end = put_words(out, 0, b"refused");
    let number_end = put_spaced(out, words_end, number);
    put_byte(out, number_end, b'\n')
}
