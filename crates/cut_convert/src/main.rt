// Reads a journal from standard input and writes it, converted to another edition, to standard output. The argument names the conversion: `upgrade`
// from edition 1 to edition 3, or `downgrade` back. A refusal, and how the program is called where the argument is neither, go to standard error,
// so that nothing but a journal stands in the output.

#![tactic(auto)]

ghost use Rattle.std.specs.Prelude.{◌≤◌, length};
ghost use Rattle.conversion.specs.Call.{convert_call};
ghost use Rattle.programs.specs.Made.{bytes_of};
ghost use Rattle.cut_convert.specs.Converted.{Made};

use conversion::Conversion;
use journal::JOURNAL_BYTES;
use programs::{Job, Output};

// More than the longer name of a conversion has.
const ARGUMENT_BYTES: usize = 16;

// The conversion of a journal, at the front of the lent bytes, or its refusal.
fn converted(conversion: Conversion, journal: &[u8], out: &mut [u8]) -> Output
    ensures within { bytes_of result ≤ length out.new }
    ensures made { Made (convert_call conversion journal.now out.old) out.new result }
{
    match converter::convert(conversion, journal, out) {
        Ok(written) => Output::Answer(written),
        Err(e) => Output::Aside(text::refused(e.refusal.number(), out)),
    }
}

#[derive(Clone, Copy)]
struct Convert(Conversion);

impl Job for Convert {
    fn make(&self, journal: &[u8], out: &mut [u8]) -> Output {
        converted(self.0, journal, out)
    }
}

fn main(rt: HostRuntime) {
    let mut argument = [0u8; ARGUMENT_BYTES];
    let n = console::argument(&rt, &mut argument);
    let Some(conversion) = report::chosen(&argument[..n]) else {
        console::say(&mut rt.stderr(), b"usage: cut_convert upgrade|downgrade\n");
        return;
    };
    let mut out = [0u8; JOURNAL_BYTES];
    programs::run(
        &mut rt.stdin(),
        &mut rt.stdout(),
        &mut rt.stderr(),
        b"cut_convert",
        &Convert(conversion),
        &mut out,
    );
}
