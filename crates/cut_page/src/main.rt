// Reads a journal from standard input and prints the page of its recording, or the refusal, to standard output.

#![tactic(auto)]

use page::PAGE_BYTES;
use programs::{Job, Output};

struct Page;

impl Job for Page {
    fn make(&self, journal: &[u8], out: &mut [u8]) -> Output {
        Output::Answer(report::page_text(journal, out))
    }
}

fn main(rt: HostRuntime) {
    let mut out = [0u8; PAGE_BYTES];
    programs::run(
        &mut rt.stdin(),
        &mut rt.stdout(),
        &mut rt.stderr(),
        b"cut_page",
        &Page,
        &mut out,
    );
}
