// The zone part for C: the same steps over a plain struct, since an enum is not exported. The header is c/cut/zone.h; zone_exports gives each
// call its name there. A refusal goes to C by its number. A mark kind above 2 is unsound and meets 1; a refused struct comes back equal in
// every field.

#![tactic(auto, unfolding(crate::specs::Plain::mark_of, crate::specs::Plain::answer_plain, crate::specs::Plain::send_plain, crate::specs::Plain::receive_plain, crate::specs::Plain::request_plain, crate::specs::Plain::start_plain, crate::specs::Plain::gate_plain))]

ghost use Rattle.std.specs.Prelude.{◌≡◌};
ghost use Rattle.rules.specs.Sets.{size};
ghost use Rattle.rules.specs.declared.Direction.TheVariants.{In, Out};
ghost use Rattle.questions.specs.Refusal.{number_of};
ghost use Rattle.zone.specs.Answer.{step_answer};
ghost use Rattle.zone.specs.Zone.{next_target};
ghost use Rattle.zone.specs.declared.Zone.{Zone};
ghost use Rattle.zone_c.specs.Plain.{
  mark_of,
  kind_of,
  saved_of,
  plain_of,
  zone_if,
  refused_plain,
  answer_plain,
  open_plain,
  send_plain,
  receive_plain,
  request_plain,
  start_plain,
  gate_plain,
};

use questions::Refusal;
use rules::{Checkpoint, Saved};
use zone::{Step, Zone};

// The stock and the own events that a mark keeps.
#[repr(C)]
#[derive(Clone, Copy)]
pub struct PlainSaved {
    pub stock: u16,
    pub events: u16,
}

// A zone as C keeps it; mark is 0 (none), 1 (provisional) or 2 (firm), and with 0 the saved values mean nothing. The mark has 32 bits, as an
// enum of C has, so that a zone fills two registers.
#[repr(C)]
#[derive(Clone, Copy)]
pub struct PlainZone {
    pub number: u8,
    pub count: u8,
    pub deps: u8,
    pub edition: u8,
    pub stock: u16,
    pub events: u16,
    pub saved: PlainSaved,
    pub mark: u32,
}

// What opening answers.
#[repr(C)]
#[derive(Clone, Copy)]
pub struct PlainOpening {
    pub zone: PlainZone,
    pub refusal: u8,
}

// What a step answers; flag is 0 or 1.
#[repr(C)]
#[derive(Clone, Copy)]
pub struct PlainStep {
    pub zone: PlainZone,
    pub refusal: u8,
    pub flag: u8,
    pub to: u8,
    pub carried: u8,
}

impl From<PlainSaved> for Saved {
    ghost from_gives = { λ p s. s ≡ record { stock = p.stock; events = p.events } };

    fn from(saved: PlainSaved) -> Saved {
        Saved {
            stock: saved.stock,
            events: saved.events,
        }
    }
}

impl From<Saved> for PlainSaved {
    ghost from_gives = { λ s p. p ≡ record { stock = s.stock; events = s.events } };

    fn from(saved: Saved) -> PlainSaved {
        PlainSaved {
            stock: saved.stock,
            events: saved.events,
        }
    }
}

// The mark of a kind that is 0, 1 or 2; a higher kind is asked about before.
pub fn mark_of(kind: u32, saved: PlainSaved) -> Checkpoint
    ensures { result ≡ mark_of kind saved }
{
    match kind {
        0 => Checkpoint::None,
        1 => Checkpoint::Mutable(Saved::from(saved)),
        _ => Checkpoint::Permanent(Saved::from(saved)),
    }
}

pub fn kind_of(checkpoint: Checkpoint) -> u8
    ensures { result ≡ kind_of checkpoint }
{
    match checkpoint {
        Checkpoint::None => 0,
        Checkpoint::Mutable(_) => 1,
        Checkpoint::Permanent(_) => 2,
    }
}

pub fn saved_of(checkpoint: Checkpoint) -> PlainSaved
    ensures { result ≡ saved_of checkpoint }
{
    match checkpoint {
        Checkpoint::None => PlainSaved {
            stock: 0,
            events: 0,
        },
        Checkpoint::Mutable(saved) => PlainSaved::from(saved),
        Checkpoint::Permanent(saved) => PlainSaved::from(saved),
    }
}

impl From<Zone> for PlainZone {
    ghost from_gives = { λ z p. p ≡ plain_of z };

    fn from(zone: Zone) -> PlainZone {
        PlainZone {
            number: zone.number,
            count: zone.count,
            deps: zone.deps,
            edition: zone.edition,
            stock: zone.stock,
            events: zone.events,
            saved: saved_of(zone.checkpoint),
            mark: kind_of(zone.checkpoint) as u32,
        }
    }
}

// A mark kind above 2 is none: the struct stands for no zone, and question 1 is answered no.
impl TryFrom<PlainZone> for Zone {
    type Error = Refusal;

    ghost try_from_gives = { λ p r. r ≡ zone_if p };

    fn try_from(p: PlainZone) -> Result<Zone, Refusal> {
        let saved = Saved::from(p.saved);
        let checkpoint = match p.mark {
            0 => Checkpoint::None,
            1 => Checkpoint::Mutable(saved),
            2 => Checkpoint::Permanent(saved),
            _ => return Err(Refusal::Unsound),
        };
        Ok(Zone {
            edition: p.edition,
            number: p.number,
            count: p.count,
            stock: p.stock,
            deps: p.deps,
            events: p.events,
            checkpoint,
        })
    }
}

// What a refused call on the plain struct p answers: p as it came.
fn refused(p: PlainZone, refusal: Refusal) -> PlainStep
    ensures { result ≡ refused_plain p (number_of refusal) }
{
    PlainStep {
        zone: p,
        refusal: refusal.number(),
        flag: 0,
        to: 0,
        carried: 0,
    }
}

// The answer of a step on the plain struct p.
fn answer(p: PlainZone, step: Result<Step, Refusal>) -> PlainStep
    ensures { (z : Zone) → result ≡ answer_plain p (step_answer z step) }
{
    match step {
        Ok(s) => PlainStep {
            zone: PlainZone::from(s.zone),
            refusal: 0,
            flag: s.flag as u8,
            to: s.to,
            carried: s.carried,
        },
        Err(refusal) => refused(p, refusal),
    }
}

// Opening one zone.
pub fn cut_zone_open(edition: u8, count: u8, number: u8, stock: u16) -> PlainOpening
    ensures { result ≡ open_plain edition count number stock }
{
    match Zone::open(edition, count, number, stock) {
        Ok(zone) => PlainOpening {
            zone: PlainZone::from(zone),
            refusal: 0,
        },
        Err(e) => PlainOpening {
            zone: PlainZone::from(e.zone),
            refusal: e.refusal.number(),
        },
    }
}

// Each of the six steps refuses a mark kind above 2 first, for speed alone: `try_from` asks it too.

// A message ("hand-over") of some cars is sent to another zone.
pub fn cut_zone_send(p: PlainZone, to: u8, cars: u8) -> PlainStep
    ensures { result ≡ send_plain p to cars }
{
    if 2 < p.mark {
        return refused(p, Refusal::Unsound);
    }
    match Zone::try_from(p) {
        Ok(zone) => answer(p, zone.send(to, cars)),
        Err(refusal) => refused(p, refusal),
    }
}

// A message ("hand-over") is received from another zone; any flag but 0 counts as 1.
pub fn cut_zone_receive(p: PlainZone, from: u8, cars: u8, flag: u8) -> PlainStep
    ensures { result ≡ receive_plain p from cars flag }
{
    if 2 < p.mark {
        return refused(p, Refusal::Unsound);
    }
    match Zone::try_from(p) {
        Ok(zone) => answer(p, zone.receive(from, cars, flag != 0)),
        Err(refusal) => refused(p, refusal),
    }
}

// A request with its set is received.
pub fn cut_zone_request(p: PlainZone, set: u8) -> PlainStep
    ensures { result ≡ request_plain p set }
{
    if 2 < p.mark {
        return refused(p, Refusal::Unsound);
    }
    match Zone::try_from(p) {
        Ok(zone) => answer(p, zone.request(set)),
        Err(refusal) => refused(p, refusal),
    }
}

// A recording is started by this zone.
pub fn cut_zone_start(p: PlainZone) -> PlainStep
    ensures { result ≡ start_plain p }
{
    if 2 < p.mark {
        return refused(p, Refusal::Unsound);
    }
    match Zone::try_from(p) {
        Ok(zone) => answer(p, zone.start()),
        Err(refusal) => refused(p, refusal),
    }
}

// Cars drive in from the street.
pub fn cut_zone_enter(p: PlainZone, cars: u8) -> PlainStep
    ensures { result ≡ gate_plain p In cars }
{
    if 2 < p.mark {
        return refused(p, Refusal::Unsound);
    }
    match Zone::try_from(p) {
        Ok(zone) => answer(p, zone.enter(cars)),
        Err(refusal) => refused(p, refusal),
    }
}

// Cars drive out to the street.
pub fn cut_zone_leave(p: PlainZone, cars: u8) -> PlainStep
    ensures { result ≡ gate_plain p Out cars }
{
    if 2 < p.mark {
        return refused(p, Refusal::Unsound);
    }
    match Zone::try_from(p) {
        Ok(zone) => answer(p, zone.leave(cars)),
        Err(refusal) => refused(p, refusal),
    }
}

// The number of requests to be sent to the zones of a set.
pub fn cut_zone_requests(to: u8) -> u32
    ensures { result ≡ size to }
{
    zone::requests(to)
}

// The number of the zone to be sent to next of a set; 0 where it is empty.
#[tactic(auto, unfolding(zone::specs::Zone::next_target))]
pub fn cut_zone_next(set: u8) -> u8
    ensures { result ≡ next_target set }
{
    zone::next_of(set).unwrap_or(0)
}
