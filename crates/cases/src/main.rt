// Reads journals, each behind its length in 16 bits, high byte first, and prints the texts of each, that of its recording, that of its page, and
// for each conversion the bytes that it gives or its refusal: the stored journals and texts are those of the second implementation.

#![tactic(auto)]

ghost use Rattle.std.specs.Prelude.{◌≤◌, ℕ, length};

use conversion::Conversion;
use journal::JOURNAL_BYTES;
use report::TEXT_BYTES;
use std::io::{Read, Write};

// One journal and its texts; whether there was one. The longest stored journal has 2,774 bytes.
fn one(input: &mut impl Read, output: &mut impl Write) -> bool {
    let mut head = [0u8; 2];
    if input.read_exact(&mut head).is_err() {
        return false;
    }
    let n = u16::from_be_bytes(head) as usize;
    if 4096 < n {
        return false;
    }
    let mut space = [0u8; 4096];
    if input.read_exact(&mut space[..n]).is_err() {
        return false;
    }
    let journal = &space[..n];
    print(output, journal, report::report);
    print(output, journal, report::page_text);
    print(
        output,
        journal,
        |journal, out| converted(Conversion::Upgrade, journal, out),
    );
    print(
        output,
        journal,
        |journal, out| converted(Conversion::Downgrade, journal, out),
    );
    true
}

// One text of a journal.
fn print<F: FnOnce(&[u8], &mut [u8]) -> usize>(output: &mut impl Write, journal: &[u8], make: F)
    requires callable { F.IsAlwaysCallable make }
    requires within { (read lent after : _) (n : ℕ) → F.post make read lent n after → n ≤ length after.now }
{
    let mut out = [0u8; TEXT_BYTES];
    let n = make(journal, &mut out);
    let _ = output.write_all(&out[..n]);
}

// The line of a journal's conversion.
fn converted(conversion: Conversion, journal: &[u8], out: &mut [u8]) -> usize
    ensures { result ≤ length out.new }
{
    let mut bytes = [0u8; JOURNAL_BYTES];
    match converter::convert(conversion, journal, &mut bytes) {
        Ok(n) => text::shown(&bytes[..n], out),
        Err(e) => text::refused(e.refusal.number(), out),
    }
}

fn main(rt: HostRuntime) {
    let mut input = rt.stdin();
    let mut output = rt.stdout();
    for _ in 0..10000u16 {
        if !one(&mut input, &mut output) {
            return;
        }
    }
}
