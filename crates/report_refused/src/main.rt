// The reporting program on a magnitude above 2^126 in the first row: number 4.
#![tactic(auto)]

fn main(rt: HostRuntime) {
    report_io::report(&rt);
}
