// The channels ("lines") of a site: 64 of 16 places, each first in first out. Items are words; the places behind a channel's last item
// hold 0, so that equal contents are equal values (View: `same-contents`; push, pop and requests keep it so). Callers name a channel by its index, which they know to be below `CHANNELS`.

#![tactic(auto, unfolding(crate::specs::Channels::is_channel))]

ghost use Rattle.std.specs.Prelude.{◌≡◌, List, ℕ, ◌<◌, min, get_or};
ghost use Rattle.rules.specs.Limits.{most_zones, places};
ghost use Rattle.channel.specs.Channels.{
  most_channels,
  channels_as,
  len_of,
  words_on,
  lent_as,
  is_channel,
  all_empty,
  pushed,
  popped,
  first_of,
  highest_full,
  numbered,
  requested_all,
};

use rules::{MOST_ITEMS, PLACES, ZONES};

// `most_channels`: an index for each ordered pair of zones.
pub const CHANNELS: usize = ZONES * ZONES;

// `most_words`: the words of all channels.
pub const WORDS: usize = CHANNELS * PLACES;

// The last place of a channel.
const LAST: usize = PLACES - 1;

// `flag_weight`: what the flag adds to the cars in an item's word.
pub const FLAG_WEIGHT: u16 = 256;

// `request_weight`: what a request's word has beside its set.
pub const REQUEST_WEIGHT: u16 = 512;

#[derive(Clone, Copy)]
pub struct Channels {
    pub items: [u16; WORDS],
    pub lens: [u8; CHANNELS],
}

// Channels whose two arrays are lent apart, as C lends them: for whoever only looks at them.
#[derive(Clone, Copy)]
pub struct LentChannels<'a> {
    pub items: &'a [u16; WORDS],
    pub lens: &'a [u8; CHANNELS],
}

impl<'a> LentChannels<'a> {
    // The words on channel k, first in first: no more than its places, whatever its length.
    pub fn on(self, k: usize) -> &'a [u16]
        requires { k < most_channels }
        ensures { result.now ≡ words_on (lent_as self.entry) k }
    {
        let at = k * PLACES;
        let items = self.items;
        &items[at..at + looked_at(self.lens[k])]
    }

    // Whether no channel from a zone holds an item. Scan and same call it for a zone of a site.
    pub fn is_empty_from(self, from: usize) -> bool
        requires { from < most_zones }
        ensures { result ≡ all_empty self.entry.lens.now from }
    {
        all_empty(self.lens, from)
    }
}

impl Channels {
    pub fn lend(&self) -> LentChannels<'_>
        ensures { lent_as result ≡ self.now }
    {
        LentChannels {
            items: &self.items,
            lens: &self.lens,
        }
    }
}

// What taking the first item off a channel tells: its word, and the number of items that remain there, requests too.
#[derive(Clone, Copy)]
pub struct Taken {
    pub word: u16,
    pub remaining: u8,
}

// The index of the channel from one zone to another, both by index. Scan, steps and same call it for zones of a site, which has at most 8.
pub fn channel_index(from: usize, to: usize) -> usize
    requires { (from < most_zones) × (to < most_zones) }
    ensures { (result ≡ Rattle.channel.specs.Channels.channel_index from to) × (result < most_channels) }
{
    from * ZONES + to
}

// Whether a site of `count` zones has a channel at index k.
pub fn is_channel(count: u8, k: usize) -> bool
    ensures { result ≡ is_channel count k }
{
    let a = k / ZONES < count as usize;
    let b = k % ZONES < count as usize;
    let c = k / ZONES != k % ZONES;
    a & b & c
}

// Whether no channel from a zone holds an item, by the lengths alone: one test of eight bytes spares eight of a channel.
pub fn all_empty(lens: &[u8; CHANNELS], from: usize) -> bool
    requires { from < most_zones }
    ensures { result ≡ all_empty lens.now from }
{
    let (rows, _) = lens.as_chunks::<ZONES>();
    rows[from] == [0; ZONES]
}

// The number of words that a channel of this length has: no more than its places.
pub fn looked_at(len: u8) -> usize
    ensures { result ≡ min len places }
{
    len.min(MOST_ITEMS) as usize
}

// One item more at the end of a channel; a full channel stays as it is. Steps calls it with an index that `channel_index` gave.
pub fn push(items: &mut [u16; WORDS], lens: &mut [u8; CHANNELS], k: usize, word: u16)
    requires { k < most_channels }
    ensures { channels_as items.new lens.new ≡ pushed (channels_as items.old lens.old) k word }
{
    let n = lens[k];
    if MOST_ITEMS <= n {
        return;
    }
    items[k * PLACES + n as usize] = word;
    lens[k] = n + 1;
}

// The first item leaves a channel that holds one. Steps calls it behind question 9.
pub fn pop(items: &mut [u16; WORDS], lens: &mut [u8; CHANNELS], k: usize) -> Taken
    requires { (k < most_channels) × (0 < get_or lens.old k 0) }
    ensures { (result.word ≡ first_of (channels_as items.old lens.old) k)
        × (result.remaining ≡ len_of (channels_as items.new lens.new) k)
        × (channels_as items.new lens.new ≡ popped (channels_as items.old lens.old) k) }
{
    let at = k * PLACES;
    let last = at + LAST;
    let word = items[at];
    items.copy_within(at + 1..at + PLACES, at);
    items[last] = 0;
    let remaining = lens[k] - 1;
    lens[k] = remaining;
    Taken { word, remaining }
}

// The number of the highest zone of a set whose channel is full; none where all have a free place. The loop makes a turn for each zone of the set
// down to that one, and not one for each index: the next zone to be looked at is told by the zeros before it in a word of 32 bits, since a byte
// would be widened at each turn. Steps calls it behind question 5, for a zone of a site; searches behind a test of its own.
pub fn highest_full(lens: &[u8; CHANNELS], from: usize, to: u8) -> Option<u8>
    requires { from < most_zones }
    ensures { (items : List ℕ) → result ≡ numbered (highest_full (channels_as items lens.now) from to) }
{
    let mut unseen = to as u32;
    while unseen != 0 {
        let j = 31 - u32::leading_zeros(unseen);
        let k = channel_index(from, j as usize);
        if MOST_ITEMS <= lens[k] {
            return Some(j as u8 + 1);
        }
        unseen &= !(1u32 << j);
    }
    None
}

// A request, carrying a set, on the channel to each zone of another set: as many as that set has ones, the next one to the zone that
// its trailing zeros name. Steps calls it behind question 5, for a zone of a site.
pub fn request_all(
    items: &mut [u16; WORDS],
    lens: &mut [u8; CHANNELS],
    from: usize,
    to: u8,
    set: u8,
)
    requires { from < most_zones }
    ensures { channels_as items.new lens.new
        ≡ requested_all (channels_as items.old lens.old) from to set }
{
    let word = REQUEST_WEIGHT + set as u16;
    let mut rest = to;
    for _ in 0..u8::count_ones(to) {
        let j = u8::trailing_zeros(rest) as usize;
        let at = channel_index(from, j);
        push(items, lens, at, word);
        rest &= rest - 1;
    }
}
