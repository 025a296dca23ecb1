// Runs the calls on label tracks and cue chunks on both sides of each boundary and prints what they answer. The file stdout holds what must come out: the
// first track and the first chunk were made by hand from document 02, No. 6, and the rest by a reading of it that shares no line with the library.
//
// The cases stand in tables, with dollar signs between them and bars between the columns: the label, then what the function of that name takes, where (1)
// is column 1.
#![tactic(auto)]

ghost use Rattle.std.specs.Prelude.{◌≤◌};

use numbers::number_of;

// What a table runs.
#[derive(Clone, Copy)]
enum Call {
    Grid,
    Track,
    Chunk,
}

// bytes that are lent for a track and for a chunk, and slots that are lent for frames
const TEXT_ROOM: usize = 210;

const CHUNK_ROOM: usize = 140;

const SLOTS: usize = 5;

fn main(rt: HostRuntime) {
    grids(&rt);
    refused_grids(&rt);
    tracks(&rt);
    track_orders(&rt);
    chunks(&rt);
    chunk_orders(&rt);
    long_seconds(&rt);
    each_track_change(&rt);
    both_times(&rt);
    each_chunk_change(&rt);
    both_offsets(&rt);
    each_track_length(&rt);
    each_chunk_length(&rt);
}

fn table(rt: &impl Print, call: Call, cases: &[u8]) {
    for case in cases.split(|byte| *byte == b'$') {
        run(rt, call, case);
    }
}

fn run(rt: &impl Print, call: Call, line: &[u8]) {
    run_show::words(rt, run_cases::part(line, b'|', 0));
    run_show::end(rt);
    match call {
        Call::Grid => grid(rt, line),
        Call::Track => track(
            rt,
            run_cases::part(line, b'|', 4),
            run_cases::column_u32(line, 1),
            run_cases::column_within(line, 2, SLOTS),
            run_cases::column_within(line, 3, CHUNK_ROOM),
        ),
        Call::Chunk => chunk(
            rt,
            run_cases::part(line, b'|', 4),
            run_cases::column_u32(line, 1),
            run_cases::column_within(line, 2, SLOTS),
            run_cases::column_within(line, 3, TEXT_ROOM),
        ),
    }
}

// ---- frames are written in both forms, read again and converted

// At rate (1), with (2) of 210 bytes for the track and (3) of 140 for the chunk: the first (4) of the frames (5) to (9).
fn grid(rt: &impl Print, line: &[u8]) {
    let frames: [u32; 5] = [
        run_cases::column_u32(line, 5),
        run_cases::column_u32(line, 6),
        run_cases::column_u32(line, 7),
        run_cases::column_u32(line, 8),
        run_cases::column_u32(line, 9),
    ];
    let many = run_cases::column_within(line, 4, SLOTS);
    let rate = run_cases::column_u32(line, 1);
    grid_track(
        rt,
        frames,
        many,
        rate,
        run_cases::column_within(line, 2, TEXT_ROOM),
    );
    grid_chunk(
        rt,
        frames,
        many,
        rate,
        run_cases::column_within(line, 3, CHUNK_ROOM),
    );
}

fn grid_track(rt: &impl Print, frames: [u32; 5], many: usize, rate: u32, room: usize)
    requires { (many ≤ 5) × (room ≤ 210) }
{
    let needed = labels::labels_room(&frames[0..many], rate);
    run_show::words(rt, b"  room:");
    run_show::listing(rt, needed);
    run_show::end(rt);
    let mut text: [u8; 210] = [b'#'; 210];
    let answer = labels::write_labels(&frames[0..many], rate, &mut text[0..room]);
    run_show::words(rt, b"  track:");
    run_show::listing(rt, answer);
    run_show::end(rt);
    let bytes = answer.unwrap_or(0).min(TEXT_ROOM);
    written(rt, text, bytes);
    track_of(rt, text, bytes, rate);
}

// The bytes that were written, so many, and the one behind them.
fn written(rt: &impl Print, text: [u8; 210], many: usize)
    requires { many ≤ 210 }
{
    run_show::words(rt, &text[0..many]);
    run_show::words(rt, b"  behind:");
    behind_text(rt, &text, many);
}

fn track_of(rt: &impl Print, text: [u8; 210], many: usize, rate: u32)
    requires { many ≤ 210 }
{
    track(rt, &text[0..many], rate, SLOTS, CHUNK_ROOM);
}

// The byte behind what was written, where there is one.
fn behind_text(rt: &impl Print, text: &[u8; 210], at: usize) {
    if at < TEXT_ROOM {
        run_show::number(rt, text[at] as u64);
    }
    run_show::end(rt);
}

fn grid_chunk(rt: &impl Print, frames: [u32; 5], many: usize, rate: u32, room: usize)
    requires { (many ≤ 5) × (room ≤ 140) }
{
    let mut bytes: [u8; 140] = [b'#'; 140];
    let answer = cues::write_cues(&frames[0..many], &mut bytes[0..room]);
    run_show::words(rt, b"  chunk:");
    run_show::listing(rt, answer);
    run_show::words(rt, b":");
    bytes_of(rt, &bytes);
    run_show::end(rt);
    chunk_of(rt, bytes, answer.unwrap_or(0).min(CHUNK_ROOM), rate);
}

fn chunk_of(rt: &impl Print, bytes: [u8; 140], many: usize, rate: u32)
    requires { many ≤ 140 }
{
    chunk(rt, &bytes[0..many], rate, SLOTS, TEXT_ROOM);
}

fn bytes_of(rt: &impl Print, bytes: &[u8; 140]) {
    for &byte in bytes {
        run_show::number(rt, byte as u64);
    }
}

fn grids(rt: &impl Print) {
    table(
        rt,
        Call::Grid,
        b"\
          two frames at 48,000|48000|210|140|2|0|1$\
          no frames|48000|210|140|0$\
          one frame at rate 1|1|210|140|1|0$\
          the last frame at rate 1|1|210|140|1|1048575$\
          five frames at 44,100|44100|210|140|5|0|1|2|100|1048575$\
          five frames at 192,000|192000|210|140|5|3|4|97|190|1048575$\
          times halfway between two microseconds|65536|210|140|4|0|1|2|3$\
          below and above ten seconds|48000|210|140|2|1872|1873$\
          room exactly|48000|46|60|2|0|1$\
          no frames and no room for a track|48000|0|12|0",
    );
}

fn refused_grids(rt: &impl Print) {
    table(
        rt,
        Call::Grid,
        b"\
          rate 0|0|210|140|2|0|1$\
          rate 192,001|192001|210|140|2|0|1$\
          a frame above the limit|48000|210|140|2|0|1048576$\
          equal frames|48000|210|140|2|5|5$\
          a frame before the one before it|48000|210|140|3|0|6|5$\
          a byte short|48000|45|59|2|0|1$\
          a byte short of no frames|48000|0|11|0$\
          1 before 11, the rate|0|0|0|2|5|5$\
          1 before 11, a frame|48000|0|0|3|5|5|1048576$\
          11 before 3|48000|0|0|2|5|5",
    );
}

// ---- tracks

// At a rate, into so many slots, and into so many bytes of a chunk.
fn track(rt: &impl Print, text: &[u8], rate: u32, slots: usize, room: usize)
    requires { (slots ≤ 5) × (room ≤ 140) }
{
    let mut frames: [u32; 5] = [7; 5];
    let answer = labels::read_labels(text, rate, &mut frames[0..slots]);
    run_show::words(rt, b"  read:");
    run_show::listing(rt, answer);
    run_show::words(rt, b":");
    run_show::smalls(rt, &frames);
    run_show::end(rt);
    let mut bytes: [u8; 140] = [b'#'; 140];
    let made = label_cues::labels_to_cues(text, rate, &mut bytes[0..room]);
    run_show::words(rt, b"  to cues:");
    run_show::listing(rt, made);
    run_show::words(rt, b":");
    bytes_of(rt, &bytes);
    run_show::end(rt);
}

fn tracks(rt: &impl Print) {
    table(
        rt,
        Call::Track,
        b"\
          two labels|48000|5|140|0.010667\t0.010667\tbeat\n0.016000\t0.016000\tbeat\n$\
          exactly the slots and the bytes|48000|2|60|0.010667\t0.010667\tbeat\n0.016000\t0.016000\tbeat\n$\
          a slot and a byte short|48000|1|59|0.010667\t0.010667\tbeat\n0.016000\t0.016000\tbeat\n$\
          nothing|48000|5|140|$\
          nothing into nothing|48000|0|12|$\
          at another rate|44100|5|140|0.010667\t0.010667\tbeat\n$\
          a microsecond early|48000|5|140|0.010666\t0.010666\tbeat\n$\
          a microsecond late|48000|5|140|0.010668\t0.010668\tbeat\n$\
          before the first frame|48000|5|140|0.000000\t0.000000\tbeat\n$\
          the last frame|48000|5|140|5592.410667\t5592.410667\tbeat\n$\
          the frame behind it|48000|5|140|5592.416000\t5592.416000\tbeat\n$\
          the last frame at rate 1|1|5|140|268435712.000000\t268435712.000000\tbeat\n$\
          the frame behind it at rate 1|1|5|140|268435968.000000\t268435968.000000\tbeat\n$\
          a needless zero|48000|5|140|00.010667\t00.010667\tbeat\n$\
          a needless zero before a digit|48000|5|140|010.010667\t010.010667\tbeat\n$\
          no digit before the point|48000|5|140|.010667\t.010667\tbeat\n$\
          a plus|48000|5|140|+0.010667\t+0.010667\tbeat\n$\
          a minus|48000|5|140|-0.010667\t-0.010667\tbeat\n$\
          a space before|48000|5|140| 0.010667\t 0.010667\tbeat\n$\
          a comma|48000|5|140|0,010667\t0,010667\tbeat\n$\
          five decimals|48000|5|140|0.01067\t0.01067\tbeat\n$\
          seven decimals|48000|5|140|0.0106670\t0.0106670\tbeat\n$\
          an end later than the start|48000|5|140|0.010667\t0.016000\tbeat\n$\
          an end with another number of digits|48000|5|140|0.010667\t00.010667\tbeat\n$\
          no end|48000|5|140|0.010667\tbeat\n$\
          a space for a tab|48000|5|140|0.010667 0.010667\tbeat\n$\
          another word|48000|5|140|0.010667\t0.010667\tBeat\n$\
          no word|48000|5|140|0.010667\t0.010667\t\n$\
          a number behind the word|48000|5|140|0.010667\t0.010667\tbeat1\n$\
          a space behind the word|48000|5|140|0.010667\t0.010667\tbeat \n$\
          a carriage return|48000|5|140|0.010667\t0.010667\tbeat\r\n$\
          no line feed at the end|48000|5|140|0.010667\t0.010667\tbeat\n0.016000\t0.016000\tbeat$\
          an empty line|48000|5|140|0.010667\t0.010667\tbeat\n\n0.016000\t0.016000\tbeat\n$\
          a line feed behind|48000|5|140|0.010667\t0.010667\tbeat\n\n$\
          a mark of byte order|48000|5|140|\xEF\xBB\xBF0.010667\t0.010667\tbeat\n$\
          a line of frequencies|48000|5|140|0.010667\t0.010667\tbeat\n\\\t0.000000\t0.000000\n$\
          twice the same|48000|5|140|0.010667\t0.010667\tbeat\n0.010667\t0.010667\tbeat\n$\
          the later first|48000|5|140|0.016000\t0.016000\tbeat\n0.010667\t0.010667\tbeat\n",
    );
}

// Of several numbers that apply, the first of 1, 9, 10, 11, 3, wherever in the track each of them is.
fn track_orders(rt: &impl Print) {
    table(
        rt,
        Call::Track,
        b"\
          1 before 9|0|0|0|x$\
          1 before 10|192001|0|0|0.010666\t0.010666\tbeat\n$\
          9 before 10, the last line|48000|0|0|0.010666\t0.010666\tbeat\n0.016000\t0.016000\tbeat$\
          10 before 11, the last line|48000|0|0|0.016000\t0.016000\tbeat\n0.010667\t0.010667\tbeat\n0.010666\t0.010666\tbeat\n$\
          9 before 11, the last line|48000|0|0|0.016000\t0.016000\tbeat\n0.010667\t0.010667\tbeat\nx$\
          11 before 3|48000|0|0|0.016000\t0.016000\tbeat\n0.010667\t0.010667\tbeat\n$\
          3|48000|0|0|0.010667\t0.010667\tbeat\n",
    );
}

// ---- chunks

// Into so many slots, and at a rate into so many bytes of a track.
fn chunk(rt: &impl Print, bytes: &[u8], rate: u32, slots: usize, room: usize)
    requires { (slots ≤ 5) × (room ≤ 210) }
{
    let mut frames: [u32; 5] = [7; 5];
    let answer = cues::read_cues(bytes, &mut frames[0..slots]);
    run_show::words(rt, b"  read:");
    run_show::listing(rt, answer);
    run_show::words(rt, b":");
    run_show::smalls(rt, &frames);
    run_show::end(rt);
    let mut text: [u8; 210] = [b'#'; 210];
    let made = label_cues::cues_to_labels(bytes, rate, &mut text[0..room]);
    run_show::words(rt, b"  to labels:");
    run_show::listing(rt, made);
    run_show::end(rt);
    written(rt, text, made.unwrap_or(0).min(TEXT_ROOM));
}

fn chunks(rt: &impl Print) {
    table(
        rt,
        Call::Chunk,
        b"\
          one point|48000|5|210|cue \x1C\0\0\0\x01\0\0\0\x01\0\0\0\0\x02\0\0data\0\0\0\0\0\0\0\0\0\x02\0\0$\
          exactly the slots and the bytes|48000|1|23|cue \x1C\0\0\0\x01\0\0\0\x01\0\0\0\0\x02\0\0data\0\0\0\0\0\0\0\0\0\x02\0\0$\
          a slot and a byte short|48000|0|22|cue \x1C\0\0\0\x01\0\0\0\x01\0\0\0\0\x02\0\0data\0\0\0\0\0\0\0\0\0\x02\0\0$\
          no points|48000|5|210|cue \x04\0\0\0\0\0\0\0$\
          no points into nothing|48000|0|0|cue \x04\0\0\0\0\0\0\0$\
          the last frame|48000|5|210|cue \x1C\0\0\0\x01\0\0\0\x01\0\0\0\0\x01\0\x10data\0\0\0\0\0\0\0\0\0\x01\0\x10$\
          the frame behind it|48000|5|210|cue \x1C\0\0\0\x01\0\0\0\x01\0\0\0\0\x02\0\x10data\0\0\0\0\0\0\0\0\0\x02\0\x10$\
          an offset of 511|48000|5|210|cue \x1C\0\0\0\x01\0\0\0\x01\0\0\0\xFF\x01\0\0data\0\0\0\0\0\0\0\0\xFF\x01\0\0$\
          an offset of 256|48000|5|210|cue \x1C\0\0\0\x01\0\0\0\x01\0\0\0\0\x01\0\0data\0\0\0\0\0\0\0\0\0\x01\0\0$\
          an offset of 513|48000|5|210|cue \x1C\0\0\0\x01\0\0\0\x01\0\0\0\x01\x02\0\0data\0\0\0\0\0\0\0\0\x01\x02\0\0$\
          the largest offset|48000|5|210|cue \x1C\0\0\0\x01\0\0\0\x01\0\0\0\xFF\xFF\xFF\xFFdata\0\0\0\0\0\0\0\0\xFF\xFF\xFF\xFF$\
          another id|48000|5|210|CUE \x1C\0\0\0\x01\0\0\0\x01\0\0\0\0\x02\0\0data\0\0\0\0\0\0\0\0\0\x02\0\0$\
          a size of 24|48000|5|210|cue \x18\0\0\0\x01\0\0\0\x01\0\0\0\0\x02\0\0data\0\0\0\0\0\0\0\0\0\x02\0\0$\
          a size of 32|48000|5|210|cue \x20\0\0\0\x01\0\0\0\x01\0\0\0\0\x02\0\0data\0\0\0\0\0\0\0\0\0\x02\0\0$\
          a count of 0 before a point|48000|5|210|cue \x1C\0\0\0\0\0\0\0\x01\0\0\0\0\x02\0\0data\0\0\0\0\0\0\0\0\0\x02\0\0$\
          a count of 2 before a point|48000|5|210|cue \x34\0\0\0\x02\0\0\0\x01\0\0\0\0\x02\0\0data\0\0\0\0\0\0\0\0\0\x02\0\0$\
          a name of 0|48000|5|210|cue \x1C\0\0\0\x01\0\0\0\0\0\0\0\0\x02\0\0data\0\0\0\0\0\0\0\0\0\x02\0\0$\
          a name of 2|48000|5|210|cue \x1C\0\0\0\x01\0\0\0\x02\0\0\0\0\x02\0\0data\0\0\0\0\0\0\0\0\0\x02\0\0$\
          another position|48000|5|210|cue \x1C\0\0\0\x01\0\0\0\x01\0\0\0\0\0\0\0data\0\0\0\0\0\0\0\0\0\x02\0\0$\
          another chunk|48000|5|210|cue \x1C\0\0\0\x01\0\0\0\x01\0\0\0\0\x02\0\0slnt\0\0\0\0\0\0\0\0\0\x02\0\0$\
          a chunk start of 1|48000|5|210|cue \x1C\0\0\0\x01\0\0\0\x01\0\0\0\0\x02\0\0data\x01\0\0\0\0\0\0\0\0\x02\0\0$\
          a block start of 1|48000|5|210|cue \x1C\0\0\0\x01\0\0\0\x01\0\0\0\0\x02\0\0data\0\0\0\0\x01\0\0\0\0\x02\0\0$\
          another offset|48000|5|210|cue \x1C\0\0\0\x01\0\0\0\x01\0\0\0\0\x02\0\0data\0\0\0\0\0\0\0\0\0\x03\0\0$\
          the high byte first|48000|5|210|cue \0\0\0\x1C\0\0\0\x01\0\0\0\x01\0\0\x02\0data\0\0\0\0\0\0\0\0\0\0\x02\0$\
          a byte behind|48000|5|210|cue \x1C\0\0\0\x01\0\0\0\x01\0\0\0\0\x02\0\0data\0\0\0\0\0\0\0\0\0\x02\0\0\0$\
          a byte short|48000|5|210|cue \x1C\0\0\0\x01\0\0\0\x01\0\0\0\0\x02\0\0data\0\0\0\0\0\0\0\0\0\x02\0$\
          a count that would wrap|48000|5|210|cue \x04\0\0\0\0\0\0\x20$\
          eleven bytes|48000|5|210|cue \x04\0\0\0\0\0\0$\
          nothing|48000|5|210|",
    );
}

// Of several numbers that apply, the first of 1, 9, 10, 11, 3, wherever in the chunk each of them is; a chunk alone has no 1.
fn chunk_orders(rt: &impl Print) {
    table(
        rt,
        Call::Chunk,
        b"\
          1 before 9|0|0|0|x$\
          1 before 10|192001|0|0|cue \x1C\0\0\0\x01\0\0\0\x01\0\0\0\0\0\0\0data\0\0\0\0\0\0\0\0\0\0\0\0$\
          9 before 10, the last point|48000|0|0|cue \x34\0\0\0\x02\0\0\0\x01\0\0\0\0\0\0\0data\0\0\0\0\0\0\0\0\0\0\0\0\
          \x03\0\0\0\0\x02\0\0data\0\0\0\0\0\0\0\0\0\x02\0\0$\
          10 before 11, the last point|48000|0|0|cue \x4C\0\0\0\x03\0\0\0\x01\0\0\0\0\x03\0\0data\0\0\0\0\0\0\0\0\0\x03\0\0\
          \x02\0\0\0\0\x02\0\0data\0\0\0\0\0\0\0\0\0\x02\0\0\x03\0\0\0\0\0\0\0data\0\0\0\0\0\0\0\0\0\0\0\0$\
          11 before 3|48000|0|0|cue \x34\0\0\0\x02\0\0\0\x01\0\0\0\0\x03\0\0data\0\0\0\0\0\0\0\0\0\x03\0\0\
          \x02\0\0\0\0\x03\0\0data\0\0\0\0\0\0\0\0\0\x03\0\0$\
          3|48000|0|0|cue \x1C\0\0\0\x01\0\0\0\x01\0\0\0\0\x02\0\0data\0\0\0\0\0\0\0\0\0\x02\0\0",
    );
}

// ---- seconds of a thousand digits

// A label whose two times have a thousand digits before the point: nines alone, a needless zero before them, and as many zeros.
fn long_seconds(rt: &impl Print) {
    run_show::words(rt, b"seconds of a thousand digits:");
    run_show::small(rt, long_number(b'9', b'9'));
    run_show::small(rt, long_number(b'0', b'9'));
    run_show::small(rt, long_number(b'0', b'0'));
    run_show::end(rt);
}

fn long_number(first: u8, digit: u8) -> u32 {
    let mut text: [u8; 2021] = [digit; 2021];
    text[0] = first;
    text[1000] = b'.';
    text[1007] = b'\t';
    text[1008] = first;
    text[2008] = b'.';
    text[2015] = b'\t';
    text[2016] = b'b';
    text[2017] = b'e';
    text[2018] = b'a';
    text[2019] = b't';
    text[2020] = b'\n';
    let mut frames: [u32; 1] = [7];
    number_of(&labels::read_labels(&text, 48000, &mut frames))
}

// ---- each change of one byte, and each length

// The track and the chunk of frames 0 and 1: how many of the 255 changes of each byte get number 0, 9, 10, 11; and the same where both times, or both
// offsets, of the last label or point change alike.
fn each_track_change(rt: &impl Print) {
    let text = two_labels();
    for place in 0..46 {
        run_show::words(rt, b"track byte");
        text_changes(rt, text, place, place);
    }
}

fn both_times(rt: &impl Print) {
    let text = two_labels();
    for place in 23..31 {
        run_show::words(rt, b"both times byte");
        text_changes(rt, text, place, place + 9);
    }
}

fn each_chunk_change(rt: &impl Print) {
    let bytes = two_points();
    for place in 0..60 {
        run_show::words(rt, b"chunk byte");
        chunk_changes(rt, bytes, place, place);
    }
}

fn both_offsets(rt: &impl Print) {
    let bytes = two_points();
    for place in 40..44 {
        run_show::words(rt, b"both offsets byte");
        chunk_changes(rt, bytes, place, place + 16);
    }
}

fn two_labels() -> [u8; 46] {
    let frames: [u32; 2] = [0, 1];
    let mut text: [u8; 46] = [0; 46];
    let _ = labels::write_labels(&frames, 48000, &mut text);
    text
}

fn two_points() -> [u8; 60] {
    let frames: [u32; 2] = [0, 1];
    let mut bytes: [u8; 60] = [0; 60];
    let _ = cues::write_cues(&frames, &mut bytes);
    bytes
}

fn text_changes(rt: &impl Print, text: [u8; 46], place: usize, again: usize)
    requires { (place ≤ 45) × (again ≤ 45) }
{
    let mut other = text;
    let mut tally: [u32; 12] = [0; 12];
    for _ in 1..256 {
        let next = other[place].wrapping_add(1);
        other[place] = next;
        other[again] = next;
        count_number(&mut tally, text_number(other));
    }
    told(rt, place, tally);
}

fn chunk_changes(rt: &impl Print, bytes: [u8; 60], place: usize, again: usize)
    requires { (place ≤ 59) × (again ≤ 59) }
{
    let mut other = bytes;
    let mut tally: [u32; 12] = [0; 12];
    for _ in 1..256 {
        let next = other[place].wrapping_add(1);
        other[place] = next;
        other[again] = next;
        count_number(&mut tally, chunk_number(other));
    }
    told(rt, place, tally);
}

fn count_number(tally: &mut [u32; 12], number: u32) {
    if number < 12 {
        let at = number as usize;
        tally[at] = tally[at].wrapping_add(1);
    }
}

fn told(rt: &impl Print, place: usize, tally: [u32; 12]) {
    run_show::count(rt, place);
    run_show::words(rt, b":");
    run_show::small(rt, tally[0]);
    run_show::small(rt, tally[9]);
    run_show::small(rt, tally[10]);
    run_show::small(rt, tally[11]);
    run_show::end(rt);
}

fn text_number(text: [u8; 46]) -> u32 {
    let mut frames: [u32; 5] = [7; 5];
    number_of(&labels::read_labels(&text, 48000, &mut frames))
}

fn chunk_number(bytes: [u8; 60]) -> u32 {
    let mut frames: [u32; 5] = [7; 5];
    number_of(&cues::read_cues(&bytes, &mut frames))
}

// The number of the first bytes of both, for each length.
fn each_track_length(rt: &impl Print) {
    let text = two_labels();
    run_show::words(rt, b"track lengths 0 to 46:");
    for many in 0..=46 {
        run_show::small(rt, first_text(text, many));
    }
    run_show::end(rt);
}

fn each_chunk_length(rt: &impl Print) {
    let bytes = two_points();
    run_show::words(rt, b"chunk lengths 0 to 60:");
    for many in 0..=60 {
        run_show::small(rt, first_chunk(bytes, many));
    }
    run_show::end(rt);
}

fn first_text(text: [u8; 46], many: usize) -> u32
    requires { many ≤ 46 }
{
    let mut frames: [u32; 5] = [7; 5];
    number_of(&labels::read_labels(&text[0..many], 48000, &mut frames))
}

fn first_chunk(bytes: [u8; 60], many: usize) -> u32
    requires { many ≤ 60 }
{
    let mut frames: [u32; 5] = [7; 5];
    number_of(&cues::read_cues(&bytes[0..many], &mut frames))
}
