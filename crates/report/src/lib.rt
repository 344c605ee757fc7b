// The programs' texts (docs/RULES.md, section 9): a journal in, its recording or its page out; and which conversion an argument names.

#![tactic(auto)]

ghost use Rattle.questions.specs.Refusal.{number_of};
ghost use Rattle.report.specs.Report.{report_text};
ghost use Rattle.report.specs.Wall.{wall_text};
ghost use Rattle.text.specs.Text.{refused_text, Prints};
ghost use Rattle.std.specs.Prelude.{◌≡◌};
ghost use Rattle.report.specs.Choice.{chosen_by};

use conversion::Conversion;
use journal::{JOURNAL_BYTES, JournalRefusal};
use recording::RECORDING_BYTES;

// The bytes of a journal that its text depends on: one more than the longest journal has, which shows an overlong one (`report-overlong`,
// `wall-overlong`, `convert-overlong`).
pub const SEEN_BYTES: usize = JOURNAL_BYTES + 1;

// The characters of the longest text of `report` (`report-fits`): three for each byte of a recording.
pub const TEXT_BYTES: usize = 3 * RECORDING_BYTES;

// The text of a refusal of a journal, or of what is made of it.
fn refused(e: JournalRefusal, out: &mut [u8]) -> usize
    ensures { Prints (refused_text (number_of e.refusal)) out.old out.new result }
{
    text::refused(e.refusal.number(), out)
}

// The text that the program prints for a journal: its recording, or the refusal of the journal or of the recording.
pub fn report(journal: &[u8], out: &mut [u8]) -> usize
    ensures { Prints (report_text journal.now) out.old out.new result }
{
    let mut bytes = [0u8; RECORDING_BYTES];
    match recorder::record_journal(journal, &mut bytes) {
        Ok(recording) => text::shown(&bytes[..recording.written], out),
        Err(e) => refused(e, out),
    }
}

// The text that the page's program prints for a journal: the page of its recording, or the same refusal. The page is written to the lent bytes
// themselves, and no byte of it is copied; so where these are too few for the page the refusal is 14, which it never is from 1,105 bytes on
// (`page-never`, `wall-enough`).
pub fn page_text(journal: &[u8], out: &mut [u8]) -> usize
    ensures { Prints (wall_text journal.now out.old) out.old out.new result }
{
    match pager::page_journal(journal, out) {
        Ok(written) => written,
        Err(why) => refused(why, out),
    }
}

// The conversion that an argument names: `upgrade` from edition 1 to edition 3, `downgrade` back.
#[tactic(auto, using(crate::proofs::Choice::chosen_cases), unfolding(crate::specs::Choice::chosen_by))]
pub fn chosen(argument: &[u8]) -> Option<Conversion>
    ensures { result ≡ chosen_by argument.now }
{
    match argument {
        b"upgrade" => Some(Conversion::Upgrade),
        b"downgrade" => Some(Conversion::Downgrade),
        _ => None,
    }
}
