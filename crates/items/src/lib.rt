// The items of a recording: the journal's records counted by channel, and the items of each channel written as words.

#![tactic(auto, unfolding(crate::specs::InnerItems::is_sent, crate::specs::InnerItems::number_at, crate::specs::InnerItems::item_number))]

ghost use Rattle.std.specs.Prelude.{◌≡◌, ◌*◌, ◌/◌, ◌<◌, ◌≤◌, length, get_or};
ghost use Rattle.rules.specs.Limits.{most_records};
ghost use Rattle.channel.specs.Channels.{most_channels};
ghost use Rattle.run.specs.Layout.{second_weight};
ghost use Rattle.recording.specs.InnerRecords.{is_in};
ghost use Rattle.items.specs.InnerItems.{high_bytes, owner_of, is_sent, counts, Counted, number_at, item_number, Begins, all_words};
ghost use Rattle.words.specs.InnerWrote.{Wrote};

use channel::CHANNELS;
use rules::ZONES;
use run::SECOND_WEIGHT;

// The number of values of a record's high byte, which is its kind and its channel's index.
pub const HIGH_BYTES: usize = 256;

// A start for each channel, and one behind the last.
const BEGINS: usize = CHANNELS + 1;

// Whether an event is inside the events shown, by its ordinal.
fn inside(ordinal: u16, shown: u16) -> bool
    ensures { result ≡ is_in ordinal shown }
{
    (1..=shown).contains(&ordinal)
}

// The high byte of a record's word: its kind and its channel's index.
fn high_byte(word: u16) -> usize
    ensures { (result ≡ word / second_weight) × (result < high_bytes) }
{
    (word / SECOND_WEIGHT) as usize
}

// The events shown for the zone that acts, by the high byte of a record's word: the sender's for a message, the receiver's for a receipt.
// A high byte is below 256. The events shown are lent, since a loop asks for each record: by value they would be copied each time.
fn shown_for(shown: &[u16; ZONES], high: usize) -> u16
    requires { high < high_bytes }
    ensures { result ≡ get_or shown.now (owner_of high) 0 }
{
    let owner = if high < CHANNELS {
        high / ZONES
    } else {
        high % ZONES
    };
    shown[owner]
}

// The records that are inside the events shown, counted by the high byte of their word: messages sent on the channel at index k stand
// at k, receipts on it at 64 + k. Recorder calls it for a run that its journal replays to: at
// most 1,000 records, each with its own-event ordinal. `counted_of` (crates/items/proofs) says
// that these are the numbers that `write` requires.
pub fn counted(words: &[u16], ordinals: &[u16], shown: [u16; ZONES]) -> [u16; HIGH_BYTES]
    requires { (length words.now ≤ most_records) × (length ordinals.now ≡ length words.now) }
    ensures { result ≡ counts shown words.now ordinals.now }
{
    let mut seen = [0u16; HIGH_BYTES];
    for (&word, &ordinal) in words.iter().zip(ordinals) {
        let high = high_byte(word);
        // Added as a number, so that the loop has no branch.
        seen[high] += u16::from(inside(ordinal, shown_for(&shown, high)));
    }
    seen
}

// The number of items on the channel at index k, which is below 64; 0 where the site has no channel there.
fn number_at(count: u8, seen: &[u16; HIGH_BYTES], k: usize) -> usize
    requires { k < most_channels }
    ensures { (result ≡ number_at count seen.now k) × (result ≤ 65535) }
{
    if !channel::is_channel(count, k) {
        return 0;
    }
    seen[k].saturating_sub(seen[CHANNELS + k]) as usize
}

// The number of the items before those of each channel, which is where its words begin; behind the last channel, the number of all.
fn begins(count: u8, seen: &[u16; HIGH_BYTES]) -> [usize; BEGINS]
    ensures { Begins most_channels result count seen.now }
{
    let mut begins = [0usize; BEGINS];
    for k in 0..CHANNELS {
        begins[k + 1] = begins[k] + number_at(count, seen, k);
    }
    begins
}

// The number of items on all channels of the site.
pub fn number(count: u8, seen: &[u16; HIGH_BYTES]) -> usize
    ensures { result ≡ item_number count seen.now }
{
    begins(count, seen)[CHANNELS]
}

// Whether a record is a message inside the sender's events shown, by the high byte of its word and its own-event ordinal.
fn is_sent(high: usize, ordinal: u16, shown: &[u16; ZONES]) -> bool
    ensures { result ≡ is_sent high ordinal shown.now }
{
    high < CHANNELS && inside(ordinal, shown[high / ZONES])
}

// The words of all items, by sender, then receiver, then order sent, from the front of the lent bytes on. What `counted` counted of these
// records is `seen`; recorder calls it behind question 14, by which there is room. The items of a channel are its last messages: one walk
// over the records, the last one first, writes the words of each index from their end on, until none is missing. At k + 1 `ends` has the
// number of the items before the written ones of channel k; where this is the channel's start, its messages further back were received, or the
// site has no channel there.
pub fn write(
    out: &mut [u8],
    count: u8,
    words: &[u16],
    ordinals: &[u16],
    shown: [u16; ZONES],
    seen: &[u16; HIGH_BYTES],
) -> usize
    requires { (length ordinals.now ≡ length words.now) × Counted seen.now shown words.now ordinals.now
        × (2 * length (all_words count shown words.now ordinals.now) ≤ length out.old) }
    ensures { Wrote (all_words count shown words.now ordinals.now) out.old out.new result }
{
    let begins = begins(count, seen);
    let mut ends = begins;
    let mut missing = begins[CHANNELS];
    // By number: two iterators from the last record back would take a recording 4% more instructions.
    for i in (0..words.len()).rev() {
        if missing == 0 {
            break;
        }
        let word = words[i];
        let k = high_byte(word);
        if !is_sent(k, ordinals[i], &shown) {
            continue;
        }
        let end = ends[k + 1];
        if end == begins[k] {
            continue;
        }
        ends[k + 1] = end - 1;
        missing -= 1;
        words::write_word(&mut out[2 * (end - 1)..], word);
    }
    2 * begins[CHANNELS]
}
