// A frame's time in whole microseconds: exact, rounded half up once, in whole numbers.
//
// Document 02, No. 3 and No. 6. Inner: the crates that write times share it. It refuses nothing: its callers judge the rate first.
#![tactic(auto)]

ghost use Rattle.std.specs.Prelude.{◌≡◌, ◌<◌};
ghost use Rattle.times.specs.Micros.{microseconds};

// Inner: the microseconds of a frame. Any frame of 32 bits and any rate but 0 fit 64 bits on the way.
pub fn microseconds(frame: u32, rate: u32) -> u64
    requires { 0 < rate }
    ensures { result ≡ microseconds frame rate }
{
    let samples = (frame as u64) * 256 + 512;
    let micros = samples * 1_000_000;
    let wide = rate as u64;
    let whole = micros / wide;
    let rest = micros % wide;
    if rest * 2 >= wide {
        return whole + 1;
    }
    whole
}
