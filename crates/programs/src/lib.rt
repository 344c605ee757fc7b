// What the programs do: each reads a journal from standard input and writes what it makes of it to standard output.

#![tactic(auto)]

ghost use Rattle.std.specs.Prelude.{◌≤◌, length};
ghost use Rattle.programs.specs.Made.{bytes_of};
ghost use Rattle.programs.specs.declared.Output.{Output};

use report::SEEN_BYTES;
use std::io::{Read, Write};

// What was made of a journal, so many of the lent bytes. A refused recording or page is an answer like any other (docs/RULES.md, section 9); the
// refusal of a conversion stands aside, so that nothing but a journal stands in the answer.
#[derive(Clone, Copy)]
pub enum Output {
    Answer(usize),
    Aside(usize),
}

// What a program makes of a journal.
pub trait Job {
    // It stands at the front of the lent bytes, which are enough for it.
    fn make(&self, journal: &[u8], out: &mut [u8]) -> Output
        ensures { bytes_of result ≤ length out.new };
}

// The whole run of the program of this name, with a journal's bytes as far as its text depends on them, and bytes lent that are enough for its
// answer. Where the input could not be read, which `console::read` says, nothing is written.
pub fn run(
    input: &mut impl Read,
    output: &mut impl Write,
    errors: &mut impl Write,
    program: &[u8],
    job: &impl Job,
    out: &mut [u8],
) {
    let mut space = [0u8; SEEN_BYTES];
    let Ok(n) = console::read(input, errors, program, &mut space) else {
        return;
    };
    match job.make(&space[..n], out) {
        Output::Answer(m) => console::write(output, errors, program, &out[..m]),
        Output::Aside(m) => console::say(errors, &out[..m]),
    }
}
