// The reporting program on document 01's example.
#![tactic(auto)]

fn main(rt: HostRuntime) {
    report_io::report(&rt);
}
