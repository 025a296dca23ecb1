// Runs the writer and the reader of tempo tracks on both sides of each boundary and prints what they answer. The file stdout holds what must come out:
// the first three files were made by hand from the Standard MIDI Files specification, the rest by a reading of document 02, No. 3, that shares no
// line with the library.
//
// The cases stand in tables, with dollar signs between them and bars between the columns: the label, then what the function of that name takes, where (1)
// is column 1.
#![tactic(auto)]

ghost use Rattle.std.specs.Prelude.{◌≤◌};

// What a table runs.
#[derive(Clone, Copy)]
enum Call {
    Grid,
    File,
}

// bytes that are lent to the writer, and slots that are lent to the reader
const ROOM: usize = 60;

const SLOTS: usize = 5;

fn main(rt: HostRuntime) {
    tracks(&rt);
    gaps(&rt);
    refused(&rt);
    orders(&rt);
    files(&rt);
    each_change(&rt);
    each_length(&rt);
}

fn table(rt: &impl Print, call: Call, cases: &[u8]) {
    for case in cases.split(|byte| *byte == b'$') {
        run(rt, call, case);
    }
}

fn run(rt: &impl Print, call: Call, line: &[u8]) {
    run_show::words(rt, run_cases::part(line, b'|', 0));
    match call {
        Call::Grid => grid(rt, line),
        Call::File => read(rt, run_cases::part(line, b'|', 1), SLOTS),
    }
    run_show::end(rt);
}

// ---- a grid is written, and what was written is read

// At rate (1), into (2) of 60 bytes, and read into (3) of 5 slots: the first (4) of the beats (5) to (9).
fn grid(rt: &impl Print, line: &[u8]) {
    let beats: [u32; 5] = [
        run_cases::column_u32(line, 5),
        run_cases::column_u32(line, 6),
        run_cases::column_u32(line, 7),
        run_cases::column_u32(line, 8),
        run_cases::column_u32(line, 9),
    ];
    let many = run_cases::column_within(line, 4, SLOTS);
    let room = run_cases::column_within(line, 2, ROOM);
    let slots = run_cases::column_within(line, 3, SLOTS);
    let mut file: [u8; 60] = [170; 60];
    let answer = midi::write_tempo_track(
        &beats[0..many],
        run_cases::column_u32(line, 1),
        &mut file[0..room],
    );
    run_show::listing(rt, answer);
    run_show::words(rt, b":");
    bytes(rt, &file);
    run_show::end(rt);
    run_show::words(rt, b"  read:");
    read(rt, &file[0..answer.unwrap_or(0).min(ROOM)], slots);
}

fn bytes(rt: &impl Print, file: &[u8; 60]) {
    for &byte in file {
        run_show::number(rt, byte as u64);
    }
}

// Reads a file into so many slots, and tells the gaps that it has.
fn read(rt: &impl Print, file: &[u8], slots: usize)
    requires { slots ≤ 5 }
{
    let mut gaps: [u32; 5] = [7; 5];
    let answer = midi::read_tempo_track(file, &mut gaps[0..slots]);
    run_show::listing(rt, answer);
    run_show::words(rt, b":");
    run_show::smalls(rt, &gaps);
}

fn tracks(rt: &impl Print) {
    table(
        rt,
        Call::Grid,
        b"\
          two beats|44100|60|5|2|0|10$\
          three beats|44100|60|5|3|0|10|25$\
          five beats at the highest rate|192000|60|5|5|0|1|2|3|4$\
          errors do not add up|48000|60|5|5|3|97|190|284|378$\
          room and slots exactly|44100|40|2|3|0|10|25$\
          times halfway between two microseconds|65536|60|5|4|0|1|2|3$\
          the last two frames|44100|60|5|2|1048574|1048575",
    );
}

fn gaps(rt: &impl Print) {
    table(
        rt,
        Call::Grid,
        b"\
          a gap of 16,777,215|10849|60|5|2|0|711$\
          a gap of 16,777,216|15625|60|5|2|0|1024$\
          the last of two gaps too long|15625|60|5|3|0|5|1029$\
          one frame at rate 16|16|60|5|2|0|1$\
          one frame at rate 15|15|60|5|2|0|1$\
          one frame at rate 1|1|60|5|2|0|1$\
          from the first frame to the last|192000|60|5|2|0|1048575",
    );
}

fn refused(rt: &impl Print) {
    table(
        rt,
        Call::Grid,
        b"\
          rate 0|0|60|5|2|0|10$\
          rate 192,001|192001|60|5|2|0|10$\
          a frame above the limit|44100|60|5|2|1048575|1048576$\
          no beats|44100|60|5|0$\
          one beat|44100|60|5|1|5$\
          equal beats|44100|60|5|2|5|5$\
          a beat before the one before it|44100|60|5|2|5|4$\
          equal beats at the end|44100|60|5|3|5|6|6$\
          a byte short|44100|32|5|2|0|10$\
          a slot short|44100|60|1|3|0|10|25$\
          no slots|44100|60|0|2|0|10",
    );
}

// Of several numbers that apply, the first of 1, 6, 7, 3.
fn orders(rt: &impl Print) {
    table(
        rt,
        Call::Grid,
        b"\
          1 before 6, the rate|0|0|5|0$\
          1 before 6, a frame|44100|0|5|2|1048576|5$\
          1 before 7|44100|0|5|2|0|1048576$\
          6 before 7|15625|0|5|3|0|1024|1024$\
          7 before 3|15625|0|5|2|0|1024$\
          6 before 3|44100|0|5|1|5",
    );
}

// ---- files that another wrote

fn files(rt: &impl Print) {
    table(
        rt,
        Call::File,
        b"\
          two gaps|MThd\x00\x00\x00\x06\x00\x00\x00\x01\x00\x60MTrk\x00\x00\x00\x12\
          \x00\xFF\x51\x03\x00\xE2\xC2\x60\xFF\x51\x03\x01\x54\x23\x60\xFF\x2F\x00$\
          a gap that no grid has|MThd\x00\x00\x00\x06\x00\x00\x00\x01\x00\x60MTrk\x00\x00\x00\x0B\
          \x00\xFF\x51\x03\x00\x00\x01\x60\xFF\x2F\x00$\
          the longest gap|MThd\x00\x00\x00\x06\x00\x00\x00\x01\x00\x60MTrk\x00\x00\x00\x0B\
          \x00\xFF\x51\x03\xFF\xFF\xFF\x60\xFF\x2F\x00$\
          a tempo of 0|MThd\x00\x00\x00\x06\x00\x00\x00\x01\x00\x60MTrk\x00\x00\x00\x0B\
          \x00\xFF\x51\x03\x00\x00\x00\x60\xFF\x2F\x00$\
          a second tempo of 0|MThd\x00\x00\x00\x06\x00\x00\x00\x01\x00\x60MTrk\x00\x00\x00\x12\
          \x00\xFF\x51\x03\x00\xE2\xC2\x60\xFF\x51\x03\x00\x00\x00\x60\xFF\x2F\x00$\
          no gap|MThd\x00\x00\x00\x06\x00\x00\x00\x01\x00\x60MTrk\x00\x00\x00\x04\
          \x60\xFF\x2F\x00$\
          running status|MThd\x00\x00\x00\x06\x00\x00\x00\x01\x00\x60MTrk\x00\x00\x00\x11\
          \x00\xFF\x51\x03\x00\xE2\xC2\x60\x51\x03\x01\x54\x23\x60\xFF\x2F\x00$\
          running status, its length as it was|MThd\x00\x00\x00\x06\x00\x00\x00\x01\x00\x60MTrk\x00\x00\x00\x12\
          \x00\xFF\x51\x03\x00\xE2\xC2\x60\x51\x03\x01\x54\x23\x60\xFF\x2F\x00$\
          a delta of two bytes|MThd\x00\x00\x00\x06\x00\x00\x00\x01\x00\x60MTrk\x00\x00\x00\x0C\
          \x80\x00\xFF\x51\x03\x00\xE2\xC2\x60\xFF\x2F\x00$\
          a header of eight bytes|MThd\x00\x00\x00\x08\x00\x00\x00\x01\x00\x60\x00\x00MTrk\x00\x00\x00\x0B\
          \x00\xFF\x51\x03\x00\xE2\xC2\x60\xFF\x2F\x00$\
          format 1|MThd\x00\x00\x00\x06\x00\x01\x00\x01\x00\x60MTrk\x00\x00\x00\x0B\
          \x00\xFF\x51\x03\x00\xE2\xC2\x60\xFF\x2F\x00$\
          division 480|MThd\x00\x00\x00\x06\x00\x00\x00\x01\x01\xE0MTrk\x00\x00\x00\x0B\
          \x00\xFF\x51\x03\x00\xE2\xC2\x60\xFF\x2F\x00$\
          the first at 96|MThd\x00\x00\x00\x06\x00\x00\x00\x01\x00\x60MTrk\x00\x00\x00\x0B\
          \x60\xFF\x51\x03\x00\xE2\xC2\x60\xFF\x2F\x00$\
          the second at 0|MThd\x00\x00\x00\x06\x00\x00\x00\x01\x00\x60MTrk\x00\x00\x00\x12\
          \x00\xFF\x51\x03\x00\xE2\xC2\x00\xFF\x51\x03\x01\x54\x23\x60\xFF\x2F\x00$\
          the second with another status|MThd\x00\x00\x00\x06\x00\x00\x00\x01\x00\x60MTrk\x00\x00\x00\x12\
          \x00\xFF\x51\x03\x00\xE2\xC2\x60\xF7\x51\x03\x01\x54\x23\x60\xFF\x2F\x00$\
          the second of another kind|MThd\x00\x00\x00\x06\x00\x00\x00\x01\x00\x60MTrk\x00\x00\x00\x12\
          \x00\xFF\x51\x03\x00\xE2\xC2\x60\xFF\x01\x03\x01\x54\x23\x60\xFF\x2F\x00$\
          the end at 0|MThd\x00\x00\x00\x06\x00\x00\x00\x01\x00\x60MTrk\x00\x00\x00\x0B\
          \x00\xFF\x51\x03\x00\xE2\xC2\x00\xFF\x2F\x00$\
          a length without the end|MThd\x00\x00\x00\x06\x00\x00\x00\x01\x00\x60MTrk\x00\x00\x00\x07\
          \x00\xFF\x51\x03\x00\xE2\xC2\x60\xFF\x2F\x00$\
          a byte behind|MThd\x00\x00\x00\x06\x00\x00\x00\x01\x00\x60MTrk\x00\x00\x00\x0B\
          \x00\xFF\x51\x03\x00\xE2\xC2\x60\xFF\x2F\x00\x00$\
          seven bytes behind|MThd\x00\x00\x00\x06\x00\x00\x00\x01\x00\x60MTrk\x00\x00\x00\x0B\
          \x00\xFF\x51\x03\x00\xE2\xC2\x60\xFF\x2F\x00\x00\x00\x00\x00\x00\x00\x00$\
          a chunk behind|MThd\x00\x00\x00\x06\x00\x00\x00\x01\x00\x60MTrk\x00\x00\x00\x0B\
          \x00\xFF\x51\x03\x00\xE2\xC2\x60\xFF\x2F\x00XFIH\x00\x00\x00\x00$\
          a name before the tempo|MThd\x00\x00\x00\x06\x00\x00\x00\x01\x00\x60MTrk\x00\x00\x00\x12\
          \x00\xFF\x03\x03abc\x00\xFF\x51\x03\x00\xE2\xC2\x60\xFF\x2F\x00$\
          no bytes|",
    );
}

// ---- each change of one byte, and each length

// The file of two beats.
fn two_beats() -> [u8; 33] {
    let beats: [u32; 2] = [0, 10];
    let mut file: [u8; 33] = [0; 33];
    let _ = midi::write_tempo_track(&beats, 44100, &mut file);
    file
}

// How many of the 255 changes of each byte are read, and the sum of the gaps that they tell.
fn each_change(rt: &impl Print) {
    let file = two_beats();
    for place in 0..33 {
        changes(rt, file, place);
    }
}

fn changes(rt: &impl Print, file: [u8; 33], place: usize)
    requires { place ≤ 32 }
{
    let mut other = file;
    let mut many: u64 = 0;
    let mut sum: u64 = 0;
    for _ in 1..256 {
        other[place] = other[place].wrapping_add(1);
        let told = told_by(other);
        if told != 0 {
            many = many.wrapping_add(1);
            sum = sum.wrapping_add(told as u64);
        }
    }
    run_show::words(rt, b"byte");
    run_show::count(rt, place);
    run_show::words(rt, b":");
    run_show::number(rt, many);
    run_show::number(rt, sum);
    run_show::end(rt);
}

// The gap of such a file, or 0 where it is refused.
fn told_by(file: [u8; 33]) -> u32 {
    let mut gaps: [u32; 1] = [0];
    let _ = midi::read_tempo_track(&file, &mut gaps);
    gaps[0]
}

// The number of the first bytes of sixty, for each length: the file of three beats, and zeros behind it.
fn each_length(rt: &impl Print) {
    let beats: [u32; 3] = [0, 10, 25];
    let mut file: [u8; 60] = [0; 60];
    let _ = midi::write_tempo_track(&beats, 44100, &mut file);
    run_show::words(rt, b"lengths 0 to 60:");
    for many in 0..=ROOM {
        first_bytes(rt, file, many);
    }
    run_show::end(rt);
}

fn first_bytes(rt: &impl Print, file: [u8; 60], many: usize)
    requires { many ≤ 60 }
{
    let mut gaps: [u32; 5] = [7; 5];
    run_show::outcome(rt, &midi::read_tempo_track(&file[0..many], &mut gaps));
}
