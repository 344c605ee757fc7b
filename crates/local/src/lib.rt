// The steps of one zone's local state, without questions: what the zone part and the site engine both run. Each is a rule of the
// rules' specs/Zone.antt, or of this crate's specs/Requesting.antt. Zones are named by index: the number less one.

#![tactic(auto, unfolding(crate::specs::Requesting::requested_by, crate::specs::Requesting::started_by, crate::specs::Requesting::turned))]

ghost use Rattle.std.specs.Prelude.{◌≡◌, ◌+◌, ◌<◌, ◌≤◌};
ghost use Rattle.rules.specs.Limits.{most_zones, most_cars, most_records};
ghost use Rattle.rules.specs.Zone.{has_checkpoint, is_permanent, opened, sent_under, deps_after, checkpoint_after, received_under, needed, through, gated, with_checkpoint};
ghost use Rattle.rules.specs.declared.Checkpoint.TheVariants.{Permanent};
ghost use Rattle.rules.specs.Sets.{only};
ghost use Rattle.local.specs.Requesting.{requested_by, started_by, turned};

use rules::{Checkpoint, Direction, Local, Saved};

// A local state, the set of zones to be sent a request, and the set that each request carries; both empty when none is sent.
#[derive(Drop)]
pub struct Requesting {
    pub local: Local,
    pub to: u8,
    pub carried: u8,
}

// Whether there is a checkpoint of either kind.
pub fn has_checkpoint(checkpoint: Checkpoint) -> bool
    ensures { result ≡ has_checkpoint checkpoint }
{
    match checkpoint {
        Checkpoint::None => false,
        Checkpoint::Mutable(_) => true,
        Checkpoint::Permanent(_) => true,
    }
}

// Whether there is a permanent checkpoint.
pub fn is_permanent(checkpoint: Checkpoint) -> bool
    ensures { result ≡ is_permanent checkpoint }
{
    match checkpoint {
        Checkpoint::None => false,
        Checkpoint::Mutable(_) => false,
        Checkpoint::Permanent(_) => true,
    }
}

// The set of the zone at an index alone.
fn bit(index: u8) -> u8
    requires { index < most_zones }
    ensures { result ≡ only index }
{
    1u8 << index
}

// A zone at first. Opening calls it for each of the eight indices, zone behind 2 and 5.
pub fn open(me: u8, stock: u16) -> Local
    requires { me < most_zones }
    ensures { result ≡ opened me stock }
{
    Local {
        stock,
        deps: bit(me),
        events: 0,
        checkpoint: Checkpoint::None,
    }
}

// The sender's side of a message, in an edition. Steps and zone call it behind 6 and 7: there is room for an own event, and the stock covers
// the cars.
pub fn send(mut z: Local, edition: u8, cars: u8) -> Local
    requires { (cars ≤ z.stock) × (z.events < most_records) }
    ensures { result ≡ sent_under edition cars z }
{
    if !edition::is_traffic(edition, cars) {
        return z;
    }
    z.stock = z.stock - cars as u16;
    z.events = z.events + 1;
    z
}

// The dependency set after a message with this flag from a zone.
fn deps_after(checkpoint: Checkpoint, deps: u8, from: u8, flag: bool) -> u8
    requires { from < most_zones }
    ensures { result ≡ deps_after checkpoint deps from flag }
{
    let grown = deps | bit(from);
    match checkpoint {
        Checkpoint::None => { if flag { deps } else { grown } }
        Checkpoint::Mutable(_) => deps,
        Checkpoint::Permanent(_) => deps,
    }
}

// The checkpoint after a message with this flag.
fn checkpoint_after(checkpoint: Checkpoint, now: Saved, flag: bool) -> Checkpoint
    ensures { result ≡ checkpoint_after checkpoint now flag }
{
    match checkpoint {
        Checkpoint::None => {
            if flag {
                Checkpoint::Mutable(now)
            } else {
                checkpoint
            }
        }
        Checkpoint::Mutable(_) => checkpoint,
        Checkpoint::Permanent(_) => checkpoint,
    }
}

// The receiver's side of a message, in an edition. Steps and zone call it behind 5 and 6, and behind 1 or 20, by which the stock stays within
// 16 bits.
pub fn receive(z: Local, edition: u8, from: u8, cars: u8, flag: bool) -> Local
    requires { (from < most_zones) × (z.stock + cars ≤ most_cars) × (z.events < most_records) }
    ensures { result ≡ received_under edition from cars flag z }
{
    if !edition::is_traffic(edition, cars) {
        return z;
    }
    let stock = z.stock + cars as u16;
    let events = z.events + 1;
    let earlier = z.checkpoint;
    let deps = deps_after(earlier, z.deps, from, flag);
    let checkpoint = checkpoint_after(
        earlier,
        Saved {
            stock: z.stock,
            events: z.events,
        },
        flag,
    );
    Local {
        stock,
        deps,
        events,
        checkpoint,
    }
}

// The stock after cars have gone through a gate.
fn stock_through(direction: Direction, cars: u8, stock: u16) -> u16
    requires { (needed direction cars ≤ stock) × (through direction cars stock ≤ most_cars) }
    ensures { result ≡ through direction cars stock }
{
    match direction {
        Direction::In => stock + cars as u16,
        Direction::Out => stock - cars as u16,
    }
}

// Cars go through the zone's gate. Steps and zone call it behind 6, and behind 21 or 20 on the way in, 7 on the way out, by which the stock
// stays within 16 bits.
pub fn gate(mut z: Local, direction: Direction, cars: u8) -> Local
    requires { (needed direction cars ≤ z.stock) × (through direction cars z.stock ≤ most_cars) × (z.events < most_records) }
    ensures { result ≡ gated direction cars z }
{
    z.stock = stock_through(direction, cars, z.stock);
    z.events = z.events + 1;
    z
}

// The state with a permanent checkpoint that keeps these values.
fn permanent(z: Local, kept: Saved) -> Local
    ensures { result ≡ with_checkpoint (Permanent kept) z }
{
    Local {
        stock: z.stock,
        deps: z.deps,
        events: z.events,
        checkpoint: Checkpoint::Permanent(kept),
    }
}

// The state with a permanent checkpoint, and the requests that it sends after a set was received.
fn turn(z: Local, kept: Saved, me: u8, set: u8) -> Requesting
    requires { me < most_zones }
    ensures { result ≡ turned kept me set z }
{
    let local = permanent(z, kept);
    let deps = z.deps;
    let own = bit(me);
    let to = deps ^ (deps & (set | own));
    if to == 0 {
        return Requesting {
            local,
            to: 0,
            carried: 0,
        };
    }
    Requesting {
        local,
        to,
        carried: deps | set,
    }
}

// Receipt of a request. Steps and zone call it for a zone of a site, so that the index is below 8.
pub fn request(z: Local, me: u8, set: u8) -> Requesting
    requires { me < most_zones }
    ensures { result ≡ requested_by me set z }
{
    let now = Saved {
        stock: z.stock,
        events: z.events,
    };
    let checkpoint = z.checkpoint;
    match checkpoint {
        Checkpoint::None => turn(z, now, me, set),
        Checkpoint::Mutable(kept) => turn(z, kept, me, set),
        Checkpoint::Permanent(_) => Requesting {
            local: z,
            to: 0,
            carried: 0,
        },
    }
}

// Start: a permanent checkpoint of this moment, whatever stood before. Steps and zone call it for a zone of a site, so that
// the index is below 8.
pub fn start(z: Local, me: u8) -> Requesting
    requires { me < most_zones }
    ensures { result ≡ started_by me z }
{
    let now = Saved {
        stock: z.stock,
        events: z.events,
    };
    turn(z, now, me, 0)
}
