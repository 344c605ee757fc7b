// The page for the wall of a run, and of a journal: the recording is written to bytes of the call's own, and the page is what these show.

#![tactic(auto)]

ghost use Rattle.std.specs.Prelude.{◌≡◌, cond, [], ◌∷◌, ◌++◌, ◌+◌, ◌*◌, ◌/◌, ◌%◌, ◌<◌, ◌≤◌, leb, eqb, length};
ghost use Rattle.std.proofs.lemmas.List.Edits.{sets};
ghost use Rattle.rules.specs.Limits.{most_zones};
ghost use Rattle.rules.proofs.Lists.{All};
ghost use Rattle.channel.specs.Channels.{most_channels};
ghost use Rattle.run.specs.Layout.{second_weight};
ghost use Rattle.text.specs.Text.{space, line_feed, column_text};
ghost use Rattle.words.specs.Bytes.{words_from};
ghost use Rattle.words.specs.Header.{zones_weight};
ghost use Rattle.journal.specs.Answers.{written_answer, journal_answer};
ghost use Rattle.recording.specs.Layout.{permanent_weight, events_values};
ghost use Rattle.page.specs.Layout.{line_bytes, firm_code, zone_text, channel_text, total_text};
ghost use Rattle.page.specs.Call.{page_call};
ghost use Rattle.page.specs.Journal.{page_journal};
ghost use Rattle.pager.specs.InnerLines.{Put, zone_lines, item_numbers, table_of, line_at, lines_in, lines_number, Holds, page_in, sized_page};

use channel::CHANNELS;
use journal::JournalRefusal;
use page::LINE_BYTES;
use questions::Refusal;
use recording::{EVENTS_VALUES, PERMANENT_WEIGHT, RECORDING_BYTES};
use rules::ZONES;
use run::{Run, SECOND_WEIGHT};

// Five characters from a position on, which is below 6.
fn five(out: &mut [u8], at: usize, characters: [u8; 5])
    requires { (at < 6) × (line_bytes ≤ length out.old) }
    ensures { out.new ≡ sets out.old at characters }
{
    out[at..at + 5].copy_from_slice(&characters);
}

// The last number of a line, and the line feed.
fn last_number(out: &mut [u8], n: u32)
    requires { line_bytes ≤ length out.old }
    ensures { out.new ≡ sets out.old 10 (column_text 6 n ++ (line_feed ∷ [])) }
{
    text::column(n, &mut out[10..16]);
    out[16] = b'\n';
}

// Both numbers of a line, and the line feed.
fn both_numbers(out: &mut [u8], four: u32, six: u32)
    requires { line_bytes ≤ length out.old }
    ensures { out.new ≡ sets out.old 5 (column_text 4 four ++ (space ∷ column_text 6 six ++ (line_feed ∷ []))) }
{
    text::column(four, &mut out[5..9]);
    out[9] = b' ';
    last_number(out, six);
}

// The letter of a zone, by its first word: firm, or not.
fn letter(word: u16) -> u8
    ensures { result ≡ firm_code (leb permanent_weight word) }
{
    if PERMANENT_WEIGHT <= word { b'F' } else { b'-' }
}

// The line of the zone at index i, by its two words in a recording.
fn write_zone(out: &mut [u8], i: u8, word: u16, stock: u16) -> usize
    requires { (i < most_zones) × (line_bytes ≤ length out.old) }
    ensures { Put (zone_text i (leb permanent_weight word) (word % events_values) stock) out.old out.new result }
{
    let firm = letter(word);
    five(out, 0, [b'Z', b'1' + i, b' ', firm, b' ']);
    both_numbers(out, (word % EVENTS_VALUES) as u32, stock as u32);
    LINE_BYTES
}

// The line of the channel from index i to index j.
fn write_channel(out: &mut [u8], i: u8, j: u8, items: u16, cars: u32) -> usize
    requires { (i < most_zones) × (j < most_zones) × (line_bytes ≤ length out.old) }
    ensures { Put (channel_text i j items cars) out.old out.new result }
{
    five(out, 0, [b'L', b'1' + i, b'1' + j, b' ', b' ']);
    both_numbers(out, items as u32, cars);
    LINE_BYTES
}

// The line of the total.
fn write_total(out: &mut [u8], total: u32) -> usize
    requires { line_bytes ≤ length out.old }
    ensures { Put (total_text total) out.old out.new result }
{
    five(out, 0, [b'T', b' ', b' ', b' ', b' ']);
    five(out, 5, [b' '; 5]);
    last_number(out, total);
    LINE_BYTES
}

// The lines of the zones, at most 8, by the bytes of a recording.
fn write_zones(out: &mut [u8], recording: &[u8], count: usize) -> usize
    requires { (count ≤ most_zones) × (line_bytes * count ≤ length out.old) }
    ensures { Put (zone_lines recording.now count) out.old out.new result }
{
    let mut at = 0;
    for i in 0..count {
        let word = words::word_at(recording, 2 + 4 * i);
        let stock = words::word_at(recording, 4 + 4 * i);
        at += write_zone(&mut out[at..], i as u8, word, stock);
    }
    at
}

// The line of the channel at index k, which is below 64; none without items.
fn write_line(out: &mut [u8], k: usize, items: u16, cars: u32) -> usize
    requires { (k < most_channels) × (cond (eqb items 0) 0 line_bytes ≤ length out.old) }
    ensures { Put (line_at k items cars) out.old out.new result }
{
    if items == 0 {
        return 0;
    }
    write_channel(out, (k / ZONES) as u8, (k % ZONES) as u8, items, cars)
}

// The lines of the channels, by sender, then receiver.
fn write_channels(out: &mut [u8], items: &[u16; CHANNELS], cars: [[u32; ZONES]; ZONES]) -> usize
    requires { line_bytes * lines_number items.now most_channels ≤ length out.old }
    ensures { Put (lines_in items.now cars most_channels) out.old out.new result }
{
    let mut at = 0;
    for (k, &number) in items.iter().enumerate() {
        at += write_line(&mut out[at..], k, number, cars[k / ZONES][k % ZONES]);
    }
    at
}

// The number of lines of all channels: one for each with items.
fn count_lines(items: &[u16; CHANNELS]) -> usize
    ensures { (result ≡ lines_number items.now most_channels) × (result ≤ most_channels) }
{
    items.iter().filter(|&&number| number != 0).count()
}

// The number of the items on each channel: so many words from a position on, each of an item on a channel.
fn item_numbers(recording: &[u8], at: usize, number: usize) -> [u16; CHANNELS]
    requires { (number < zones_weight) × (at + 2 * number ≤ length recording.now)
        × All (λ w. w / second_weight < most_channels) (words_from recording.now at number) }
    ensures { result ≡ item_numbers (words_from recording.now at number) }
{
    let mut items = [0u16; CHANNELS];
    for i in 0..number {
        let word = words::word_at(recording, at + 2 * i);
        items[(word / SECOND_WEIGHT) as usize] += 1;
    }
    items
}

// The 8 by 8 table of their cars, sender by receiver.
fn cars_table(recording: &[u8], at: usize, number: usize) -> [[u32; ZONES]; ZONES]
    requires { (number < zones_weight) × (at + 2 * number ≤ length recording.now)
        × All (λ w. w / second_weight < most_channels) (words_from recording.now at number) }
    ensures { result ≡ table_of (words_from recording.now at number) }
{
    let mut cars = [[0u32; ZONES]; ZONES];
    for i in 0..number {
        let word = words::word_at(recording, at + 2 * i);
        let k = (word / SECOND_WEIGHT) as usize;
        cars[k / ZONES][k % ZONES] += (word % SECOND_WEIGHT) as u32;
    }
    cars
}

// All lines, by the bytes of a recording, the items on each channel, the table of their cars and the total. Question 14 has seen that there is
// room.
fn write_lines(
    out: &mut [u8],
    recording: &[u8],
    count: usize,
    items: &[u16; CHANNELS],
    cars: [[u32; ZONES]; ZONES],
    total: u32,
) -> usize
    requires { (count ≤ most_zones) × (line_bytes * (count + lines_number items.now most_channels + 1) ≤ length out.old) }
    ensures { Put (zone_lines recording.now count ++ lines_in items.now cars most_channels ++ total_text total)
        out.old out.new result }
{
    let n = write_zones(out, recording, count);
    let m = write_channels(&mut out[n..], items, cars);
    let at = n + m;
    let l = write_total(&mut out[at..], total);
    at + l
}

// Question 14, then the page of what the bytes of a recording show, with its total.
fn write_page(recording: &[u8], total: u32, out: &mut [u8]) -> Result<usize, Refusal>
    requires { Holds recording.now }
    ensures { (written_answer result ≡ (sized_page out.old (page_in recording.now total)).answer)
        × (out.new ≡ (sized_page out.old (page_in recording.now total)).bytes) }
{
    let header = words::word_at(recording, 0);
    let count = words::zones_in(header) as usize;
    let number = words::number_in(header) as usize;
    let items = item_numbers(recording, 2 + 4 * count, number);
    let lines = count + count_lines(&items) + 1;
    if out.len() < LINE_BYTES * lines {
        return Err(Refusal::BytesTooFew);
    }
    let cars = cars_table(recording, 2 + 4 * count, number);
    Ok(write_lines(out, recording, count, &items, cars, total))
}

// Writes the page of a run's recording to the front of the lent bytes.
pub fn page(run: Run, out: &mut [u8]) -> Result<usize, Refusal>
    ensures { (written_answer result ≡ (page_call run out.old).answer) × (out.new ≡ (page_call run out.old).bytes) }
{
    let mut recording = [0u8; RECORDING_BYTES];
    let done = recorder::record(run, &mut recording)?;
    write_page(&recording, done.total, out)
}

// Reads a journal and writes the page of its run's recording to the front of the lent bytes.
pub fn page_journal(journal: &[u8], out: &mut [u8]) -> Result<usize, JournalRefusal>
    ensures { (journal_answer result ≡ (page_journal journal.now out.old).answer)
        × (out.new ≡ (page_journal journal.now out.old).bytes) }
{
    let mut recording = [0u8; RECORDING_BYTES];
    let done = recorder::record_journal(journal, &mut recording)?;
    let written = write_page(&recording, done.total, out)?;
    Ok(written)
}
