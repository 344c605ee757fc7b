// The calls on a site, its journal, its recording and its page under the names that C links (c/cut/site.h), in a static library of their own: no
// crate can stand on one. Each is site_c's function of its name, by the same clauses.

#![tactic(auto)]

ghost use Rattle.std.specs.Prelude.{◌≡◌};
ghost use Rattle.run.specs.declared.SiteCall.TheVariants.{Send, Receive, Start, Gate};
ghost use Rattle.rules.specs.declared.Direction.TheVariants.{In, Out};
ghost use Rattle.recording.specs.Journal.{record_journal};
ghost use Rattle.page.specs.Journal.{page_journal};
ghost use Rattle.conversion.specs.Call.{convert_call};
ghost use Rattle.conversion.specs.declared.Conversion.TheVariants.{Upgrade, Downgrade};
ghost use Rattle.site_c.specs.Plain.{plain_in, answer_in, open_plain, call_plain, write_plain, record_plain, page_plain, read_plain, recorded_plain, positioned_plain};

use channel::{CHANNELS, WORDS};
use rules::RECORDS;
use site_c::{PlainAnswer, PlainHead, PlainHeadAnswer, PlainReading, PlainWritten};

// Opens a site of `count` zones in an edition, with their stocks, or with none at all for an empty one.
#[unsafe(no_mangle)]
pub extern "C" fn cut_site_open(edition: u8, count: u8, stocks: &[u16]) -> PlainAnswer
    ensures { result ≡ open_plain edition count stocks.now }
{
    site_c::cut_site_open(edition, count, stocks)
}

// A message ("hand-over") of some cars from one zone to another.
#[unsafe(no_mangle)]
pub extern "C" fn cut_site_send(
    p: PlainHead,
    items: &mut [u16; WORDS],
    lens: &mut [u8; CHANNELS],
    journal: &mut [u16; RECORDS],
    from: u8,
    to: u8,
    cars: u8,
) -> PlainHeadAnswer
    ensures { answer_in result items.new lens.new journal.new
        ≡ call_plain (Send from to cars) (plain_in p items.old lens.old journal.old) }
{
    site_c::cut_site_send(p, items, lens, journal, from, to, cars)
}

// A receipt of the first item on the channel from one zone to another.
#[unsafe(no_mangle)]
pub extern "C" fn cut_site_receive(
    p: PlainHead,
    items: &mut [u16; WORDS],
    lens: &mut [u8; CHANNELS],
    journal: &mut [u16; RECORDS],
    from: u8,
    to: u8,
) -> PlainHeadAnswer
    ensures { answer_in result items.new lens.new journal.new
        ≡ call_plain (Receive from to) (plain_in p items.old lens.old journal.old) }
{
    site_c::cut_site_receive(p, items, lens, journal, from, to)
}

// A start of the recording by a zone.
#[unsafe(no_mangle)]
pub extern "C" fn cut_site_start(
    p: PlainHead,
    items: &mut [u16; WORDS],
    lens: &mut [u8; CHANNELS],
    journal: &mut [u16; RECORDS],
    zone: u8,
) -> PlainHeadAnswer
    ensures { answer_in result items.new lens.new journal.new
        ≡ call_plain (Start zone) (plain_in p items.old lens.old journal.old) }
{
    site_c::cut_site_start(p, items, lens, journal, zone)
}

// Cars drive in through a zone's gate ("entry").
#[unsafe(no_mangle)]
pub extern "C" fn cut_site_enter(
    p: PlainHead,
    items: &mut [u16; WORDS],
    lens: &mut [u8; CHANNELS],
    journal: &mut [u16; RECORDS],
    zone: u8,
    cars: u8,
) -> PlainHeadAnswer
    ensures { answer_in result items.new lens.new journal.new
        ≡ call_plain (Gate In zone cars) (plain_in p items.old lens.old journal.old) }
{
    site_c::cut_site_enter(p, items, lens, journal, zone, cars)
}

// Cars drive out through a zone's gate ("exit").
#[unsafe(no_mangle)]
pub extern "C" fn cut_site_leave(
    p: PlainHead,
    items: &mut [u16; WORDS],
    lens: &mut [u8; CHANNELS],
    journal: &mut [u16; RECORDS],
    zone: u8,
    cars: u8,
) -> PlainHeadAnswer
    ensures { answer_in result items.new lens.new journal.new
        ≡ call_plain (Gate Out zone cars) (plain_in p items.old lens.old journal.old) }
{
    site_c::cut_site_leave(p, items, lens, journal, zone, cars)
}

// Writes the recording of a run to the front of the lent bytes.
#[unsafe(no_mangle)]
pub extern "C" fn cut_site_record(
    p: PlainHead,
    items: &[u16; WORDS],
    lens: &[u8; CHANNELS],
    journal: &[u16; RECORDS],
    out: &mut [u8],
) -> PlainWritten
    ensures { (result ≡ (record_plain (plain_in p items.now lens.now journal.now) out.old).answer)
        × (out.new ≡ (record_plain (plain_in p items.now lens.now journal.now) out.old).bytes) }
{
    site_c::cut_site_record(p, items, lens, journal, out)
}

// Writes the page of a run's recording to the front of the lent bytes.
#[unsafe(no_mangle)]
pub extern "C" fn cut_site_page(
    p: PlainHead,
    items: &[u16; WORDS],
    lens: &[u8; CHANNELS],
    journal: &[u16; RECORDS],
    out: &mut [u8],
) -> PlainWritten
    ensures { (result ≡ (page_plain (plain_in p items.now lens.now journal.now) out.old).answer)
        × (out.new ≡ (page_plain (plain_in p items.now lens.now journal.now) out.old).bytes) }
{
    site_c::cut_site_page(p, items, lens, journal, out)
}

// Writes a run's journal to the front of the lent bytes.
#[unsafe(no_mangle)]
pub extern "C" fn cut_journal_write(
    p: PlainHead,
    items: &[u16; WORDS],
    lens: &[u8; CHANNELS],
    journal: &[u16; RECORDS],
    out: &mut [u8],
) -> PlainWritten
    ensures { (result ≡ (write_plain (plain_in p items.now lens.now journal.now) out.old).answer)
        × (out.new ≡ (write_plain (plain_in p items.now lens.now journal.now) out.old).bytes) }
{
    site_c::cut_journal_write(p, items, lens, journal, out)
}

// Reads a journal.
#[unsafe(no_mangle)]
pub extern "C" fn cut_journal_read(bytes: &[u8]) -> PlainReading
    ensures { result ≡ read_plain bytes.now }
{
    site_c::cut_journal_read(bytes)
}

// Reads a journal and writes the recording of its run to the front of the lent bytes.
#[unsafe(no_mangle)]
pub extern "C" fn cut_journal_record(bytes: &[u8], out: &mut [u8]) -> PlainWritten
    ensures { (result ≡ recorded_plain (record_journal bytes.now out.old).answer)
        × (out.new ≡ (record_journal bytes.now out.old).bytes) }
{
    site_c::cut_journal_record(bytes, out)
}

// Reads a journal and writes the page of its run's recording to the front of the lent bytes.
#[unsafe(no_mangle)]
pub extern "C" fn cut_journal_page(bytes: &[u8], out: &mut [u8]) -> PlainWritten
    ensures { (result ≡ positioned_plain (page_journal bytes.now out.old).answer)
        × (out.new ≡ (page_journal bytes.now out.old).bytes) }
{
    site_c::cut_journal_page(bytes, out)
}

// Reads a journal of edition 1 and writes it with edition 3 to the front of the lent bytes.
#[unsafe(no_mangle)]
pub extern "C" fn cut_journal_upgrade(bytes: &[u8], out: &mut [u8]) -> PlainWritten
    ensures { (result ≡ positioned_plain (convert_call Upgrade bytes.now out.old).answer)
        × (out.new ≡ (convert_call Upgrade bytes.now out.old).bytes) }
{
    site_c::cut_journal_upgrade(bytes, out)
}

// Reads a journal of edition 3 and writes it with edition 1 to the front of the lent bytes.
#[unsafe(no_mangle)]
pub extern "C" fn cut_journal_downgrade(bytes: &[u8], out: &mut [u8]) -> PlainWritten
    ensures { (result ≡ positioned_plain (convert_call Downgrade bytes.now out.old).answer)
        × (out.new ≡ (convert_call Downgrade bytes.now out.old).bytes) }
{
    site_c::cut_journal_downgrade(bytes, out)
}
