// The options of a tempo search, which the lags, the bars and every call above them take.
//
// Document 01, Tempo and candidates; request No. 4, the meter. The Rust: tempo.rs `TempoOpts`, which has no meter.
#![tactic(auto)]

ghost use Rattle.std.specs.Prelude.{◌≡◌};
ghost use Rattle.options.specs.Options.{
  default_options,
  options_of,
  with_min_bpm,
  with_max_bpm,
  with_meter,
  options_fine,
};

// The bounds of the tempo search, in beats a minute, and the beats of a bar.
#[derive(Clone, Copy)]
pub struct TempoOpts {
    pub min_bpm: f64,
    pub max_bpm: f64,
    pub meter: usize,
}

impl TempoOpts {
    // a slow ballad heard in half time
    pub const DEFAULT_MIN_BPM: f64 = 30.0;
    // a dance track heard in double time
    pub const DEFAULT_MAX_BPM: f64 = 300.0;
    // common time
    pub const DEFAULT_METER: usize = 4;
    // the most beats a bar
    pub const MOST_METER: usize = 16;

    // The defaults, 30 to 300 and bars of 4. Setters may follow: `TempoOpts::new().with_max_bpm(200.0).with_meter(3)`.
    pub fn new() -> TempoOpts
        ensures { result ≡ default_options }
    {
        TempoOpts::between(TempoOpts::DEFAULT_MIN_BPM, TempoOpts::DEFAULT_MAX_BPM)
    }

    // The options with both bounds given, in either order, and bars of 4. Refuses nothing: the calls that are lent the options do.
    pub fn between(min_bpm: f64, max_bpm: f64) -> TempoOpts
        ensures { result ≡ options_of min_bpm max_bpm }
    {
        let meter = TempoOpts::DEFAULT_METER;
        TempoOpts {
            min_bpm,
            max_bpm,
            meter,
        }
    }

    // The same options with another lower bound.
    pub fn with_min_bpm(mut self, bpm: f64) -> TempoOpts
        ensures { result ≡ with_min_bpm bpm self }
    {
        self.min_bpm = bpm;
        self
    }

    // The same options with another upper bound.
    pub fn with_max_bpm(mut self, bpm: f64) -> TempoOpts
        ensures { result ≡ with_max_bpm bpm self }
    {
        self.max_bpm = bpm;
        self
    }

    // The same options with another number of beats a bar: 3 for a waltz. Any number is taken; the calls refuse one outside 1 to 16.
    pub fn with_meter(mut self, meter: usize) -> TempoOpts
        ensures { result ≡ with_meter meter self }
    {
        self.meter = meter;
        self
    }
}

// Inner: whether number 1 does not apply to the options: 1 to 16 beats a bar. Any two bounds are inside.
pub fn options_fine(opts: TempoOpts) -> bool
    ensures { result ≡ options_fine opts }
{
    1 <= opts.meter && opts.meter <= TempoOpts::MOST_METER
}
