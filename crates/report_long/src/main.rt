// The reporting program on 4,000 rows of twelve bins, which take three reads that end within a value: clicks over noise.
#![tactic(auto)]

fn main(rt: HostRuntime) {
    report_io::report(&rt);
}
