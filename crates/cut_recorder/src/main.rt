// Reads a journal from standard input and prints its recording, or the refusal, to standard output.

#![tactic(auto)]

use programs::{Job, Output};
use report::TEXT_BYTES;

struct Record;

impl Job for Record {
    fn make(&self, journal: &[u8], out: &mut [u8]) -> Output {
        Output::Answer(report::report(journal, out))
    }
}

fn main(rt: HostRuntime) {
    let mut out = [0u8; TEXT_BYTES];
    programs::run(
        &mut rt.stdin(),
        &mut rt.stdout(),
        &mut rt.stderr(),
        b"cut_recorder",
        &Record,
        &mut out,
    );
}
