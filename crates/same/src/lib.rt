// Whether two states are the same over the zones and channels of a site: what the fuller form of question 1 compares.

#![tactic(auto, unfolding(journal::specs::Writing::same_local, journal::specs::Writing::same_zones, journal::specs::Writing::same_channel))]

ghost use Rattle.std.specs.Prelude.{◌≡◌, ◌<◌, ◌≤◌};
ghost use Rattle.rules.specs.Limits.{most_zones};
ghost use Rattle.channel.specs.Channels.{most_channels, lent_as};
ghost use Rattle.run.specs.State.{count_of};
ghost use Rattle.journal.specs.Writing.{
  same_zones,
  same_channel,
  same_channels,
  same_state,
};
ghost use Rattle.same.specs.InnerAt.{same_at, same_from};

use channel::LentChannels;
use run::{Head, Run};

// Whether the zones of a site of `count` zones are the same, in stock, dependency set, own events and checkpoint. A site has at most 8.
fn same_zones(count: u8, a: Head, b: Head) -> bool
    requires { count ≤ most_zones }
    ensures { result ≡ same_zones count a b }
{
    let xs = run::locals(a);
    let ys = run::locals(b);
    xs[..count as usize] == ys[..count as usize]
}

// Whether channel k holds the same words.
fn same_channel(a: LentChannels, b: LentChannels, k: usize) -> bool
    requires { k < most_channels }
    ensures { result ≡ same_channel (lent_as a.entry) (lent_as b.entry) k }
{
    a.lens[k] == b.lens[k] && a.on(k) == b.on(k)
}

// One index for a channel: nothing is asked of a channel that the site does not have.
fn same_at(count: u8, a: LentChannels, b: LentChannels, k: usize) -> bool
    requires { k < most_channels }
    ensures { result ≡ same_at count (lent_as a.entry) (lent_as b.entry) k }
{
    !channel::is_channel(count, k) || same_channel(a, b, k)
}

// The indices for channels from one zone. Most channels are empty in both, so the lengths are looked at first.
fn same_from(count: u8, a: LentChannels, b: LentChannels, from: usize) -> bool
    requires { (from < most_zones) × (count ≤ most_zones) }
    ensures { result ≡ same_from count (lent_as a.entry) (lent_as b.entry) from }
{
    for to in 0..count as usize {
        let k = channel::channel_index(from, to);
        let empty = (a.lens[k] == 0) & (b.lens[k] == 0);
        if !empty && !same_at(count, a, b, k) {
            return false;
        }
    }
    true
}

// Whether the channels of a site of `count` zones hold the same words: no zone behind the last one sends on a channel. The lengths of all
// channels from a zone are looked at first.
fn same_channels(count: u8, a: LentChannels, b: LentChannels) -> bool
    requires { count ≤ most_zones }
    ensures { result ≡ same_channels count (lent_as a.entry) (lent_as b.entry) }
{
    for from in 0..count as usize {
        let empty = a.is_empty_from(from) & b.is_empty_from(from);
        if !empty && !same_from(count, a, b, from) {
            return false;
        }
    }
    true
}

// Whether a run has the state of another one, over the zones and channels of the other's site. Writer calls it for a sound one, which has at most
// 8 zones. Channels are taken out before they are lent, else the whole run is copied.
#[tactic(auto, unfolding(journal::specs::Writing::same_state))]
pub fn same_state(a: Run, b: Run) -> bool
    requires { count_of b.head ≤ most_zones }
    ensures { result ≡ same_state a b }
{
    let count = b.head.opening.terms.count;
    let left = a.channels;
    let right = b.channels;
    same_zones(count, a.head, b.head) && same_channels(count, left.lend(), right.lend())
}
