// The bytes of a Standard MIDI File of tempos, and whether a file has exactly their shape.
//
// Document 02, No. 3. Inner calls all: a tempo track is written and read by them. No call refuses anything: another shape is an answer.
#![tactic(auto)]

ghost use Rattle.std.specs.Prelude.{◌≡◌, ◌&&◌, ◌+◌, ◌*◌, ◌≤◌, ◌<◌, length, drop};
ghost use Rattle.numbers.specs.Lists.{every};
ghost use Rattle.texts.specs.Texts.{starts, Put};
ghost use Rattle.midi_events.specs.File.{track_front, in_three_bytes, delta_of, tempo_event, track_end, tempo_events};
ghost use Rattle.midi_events.specs.Shapes.{track_room, count_in, tempo_from, gap_in, gaps_in, tempo_some, shaped};

// most gaps whose track has a length of 32 bits
const MOST_GAPS: usize = 613_566_755;

// ---- the bytes

// Inner: the 22 bytes before the events: the header chunk, and the name and the length of the track of so many gaps.
pub fn front(gaps: usize) -> [u8; 22]
    requires { gaps * 7 + 4 < 4294967296 }
    ensures { result ≡ track_front (gaps * 7 + 4) }
{
    let size = (gaps * 7 + 4) as u32;
    [
        77,
        84,
        104,
        100,
        0,
        0,
        0,
        6,
        0,
        0,
        0,
        1,
        0,
        96,
        77,
        84,
        114,
        107,
        (size / 16777216) as u8,
        (size / 65536 % 256) as u8,
        (size / 256 % 256) as u8,
        (size % 256) as u8,
    ]
}

// The first event stands at delta 0, the others 96 apart.
fn delta_at(i: usize) -> u8
    ensures { result ≡ delta_of i }
{
    if i == 0 { 0 } else { 96 }
}

// A tempo's three bytes.
fn tempo_bytes(gap: u32) -> [u8; 3]
    requires { gap < 16777216 }
    ensures { result ≡ in_three_bytes gap }
{
    [
        (gap / 65536) as u8,
        (gap / 256 % 256) as u8,
        (gap % 256) as u8,
    ]
}

// Inner: writes event i, which tells this gap, from `at` on, and answers the place behind it.
pub fn put_event(file: &mut [u8], at: usize, i: usize, gap: u32) -> usize
    requires gap_bound { gap < 16777216 }
    requires at_in_bounds { at + 7 ≤ length file.old }
    ensures { Put file.old at (tempo_event (delta_of i) gap) result file.new }
{
    let status = texts::put_byte(file, at, delta_at(i));
    let tempo = texts::put_words(file, status, b"\xFF\x51\x03");
    let bytes = tempo_bytes(gap);
    texts::put_words(file, tempo, &bytes)
}

// Inner: writes the track's end from `at` on, and answers the place behind it.
pub fn put_end(file: &mut [u8], at: usize) -> usize
    requires { at + 4 ≤ length file.old }
    ensures { Put file.old at track_end result file.new }
{
    texts::put_words(file, at, b"\x60\xFF\x2F\x00")
}

// ---- the shape

// Three bytes as a tempo, the high byte first.
fn tempo_from(a: u8, b: u8, c: u8) -> u32
    ensures { (result ≡ tempo_from a b c) × (result < 16777216) }
{
    (a as u32) * 65536 + (b as u32) * 256 + (c as u32)
}

// Inner: the gap that event i of a file tells.
pub fn gap_in(file: &[u8], i: usize) -> u32
    requires { 29 + i * 7 ≤ length file.now }
    ensures { (result ≡ gap_in file.now i) × (result < 16777216) }
{
    let at = 26 + i * 7;
    tempo_from(file[at], file[at + 1], file[at + 2])
}

// Whether event i, with this gap, stands in its place. Each event has a status byte of its own: a running status is another shape.
fn event_stands(file: &[u8], i: usize, gap: u32) -> bool
    requires { (gap < 16777216) × (29 + i * 7 ≤ length file.now) }
    ensures { result ≡ starts (tempo_event (delta_of i) gap) (drop (22 + i * 7) file.now) }
{
    let at = 22 + i * 7;
    if file[at] != delta_at(i) {
        return false;
    }
    if !texts::stands(file, at + 1, b"\xFF\x51\x03") {
        return false;
    }
    let bytes = tempo_bytes(gap);
    texts::stands(file, at + 4, &bytes)
}

// Whether the events of so many gaps stand in the file, each with the gap that it tells, and none of these is 0.
fn events_stand(file: &[u8], count: usize) -> bool
    requires { (count ≡ count_in file.now) × (track_room count ≤ length file.now) }
    ensures { result ≡ (starts (tempo_events 0 (gaps_in file.now)) (drop 22 file.now) && every tempo_some (gaps_in file.now)) }
{
    for i in 0..count {
        let gap = gap_in(file, i);
        if gap < 1 {
            return false;
        }
        if !event_stands(file, i, gap) {
            return false;
        }
    }
    true
}

// Inner: whether a file has exactly the shape: the bytes of one gap or more, none of them 0, and nothing else.
pub fn is_shaped(file: &[u8]) -> bool
    ensures { result ≡ shaped file.now }
{
    if file.len() < 33 {
        return false;
    }
    if (file.len() - 26) % 7 > 0 {
        return false;
    }
    let count = (file.len() - 26) / 7;
    if count > MOST_GAPS {
        return false;
    }
    let head = front(count);
    if !texts::stands(file, 0, &head) {
        return false;
    }
    if !events_stand(file, count) {
        return false;
    }
    texts::stands(file, file.len() - 4, b"\x60\xFF\x2F\x00")
}
