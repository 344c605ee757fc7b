// The zone part: one zone's state and its steps, for a controller that has lines of its own. Each step takes the zone and hands back the
// next one, or refuses with the first question (docs/RULES.md, section 7) that was answered no; the zone then stays what it was.

#![tactic(auto, unfolding(crate::specs::Zone::is_other, crate::specs::Zone::is_zone_sound, crate::specs::Zone::open_zone, crate::specs::Zone::send_step, crate::specs::Zone::receive_step, crate::specs::Zone::request_step, crate::specs::Zone::start_step, crate::specs::Zone::gate_step, crate::specs::Zone::next_target))]

ghost use Rattle.std.specs.Prelude.{◌≡◌, [], ◌∷◌, ◌≤◌, false, Ok};
ghost use Rattle.questions.specs.Refusal.{number_of, refusal_in};
ghost use Rattle.rules.specs.Questions.{refusal};
ghost use Rattle.rules.specs.Sets.{nobody};
ghost use Rattle.zone.specs.Answer.{opening_answer, step_answer};
ghost use Rattle.rules.specs.Edition.{first_edition};
ghost use Rattle.rules.specs.Limits.{most_zones};
ghost use Rattle.rules.specs.Sets.{size};
ghost use Rattle.rules.specs.declared.Direction.TheVariants.{In, Out};
ghost use Rattle.zone.specs.Zone.{
  is_other,
  is_zone_sound,
  local_of,
  with_local,
  open_zone,
  send_step,
  receive_step,
  request_step,
  start_step,
  opened_zone,
  accepted,
  requesting_step,
  last_gate_question,
  gate_step,
};

use edition::FIRST_EDITION;
use local::Requesting;
use questions::Refusal;
use rules::{Checkpoint, Direction, FEWEST_ZONES, Local, MOST_CARS, MOST_RECORDS};

// One zone: its edition, its number and the zone count of its site, its stock, its dependency set ("heard set": the zone numbered k is
// the bit of weight 2 to the power k - 1), its own events and its checkpoint ("mark").
#[derive(Clone, Copy)]
pub struct Zone {
    pub edition: u8,
    pub number: u8,
    pub count: u8,
    pub stock: u16,
    pub deps: u8,
    pub events: u16,
    pub checkpoint: Checkpoint,
}

// A zone was not opened: why, and the fixed zone that stands in its place.
#[derive(Clone, Copy)]
pub struct NotOpened {
    pub refusal: Refusal,
    pub zone: Zone,
}

// What an accepted step gives: the next zone, the flag ("marked bit") that goes with a message sent, the set of zones to be sent a
// request and the set that each request carries.
#[derive(Clone, Copy)]
pub struct Step {
    pub zone: Zone,
    pub flag: bool,
    pub to: u8,
    pub carried: u8,
}

fn not_opened(refusal: Refusal) -> NotOpened
    ensures { result ≡ record { refusal = refusal; zone = opened_zone first_edition 2 1 0 } }
{
    NotOpened {
        refusal,
        zone: opened(FIRST_EDITION, FEWEST_ZONES, 1, 0),
    }
}

impl Zone {
    // A zone at first, in its edition and with its stock.
    pub fn open(edition: u8, count: u8, number: u8, stock: u16) -> Result<Zone, NotOpened>
        ensures { opening_answer result ≡ open_zone edition count number stock }
    {
        if !edition::is_edition(edition) {
            return Err(not_opened(Refusal::Edition));
        }
        if !questions::is_count(count) {
            return Err(not_opened(Refusal::ZoneCount));
        }
        if !questions::is_on(count, number) {
            return Err(not_opened(Refusal::ZoneNames));
        }
        Ok(opened(edition, count, number, stock))
    }

    fn local(self) -> Local
        ensures { result ≡ local_of self }
    {
        Local {
            stock: self.stock,
            deps: self.deps,
            events: self.events,
            checkpoint: self.checkpoint,
        }
    }

    fn with_local(self, local: Local) -> Zone
        ensures { result ≡ with_local self local }
    {
        Zone {
            stock: local.stock,
            deps: local.deps,
            events: local.events,
            checkpoint: local.checkpoint,
            ..self
        }
    }

    fn is_sound(self) -> bool
        ensures { result ≡ is_zone_sound self }
    {
        if !questions::is_count(self.count) {
            return false;
        }
        let a = edition::is_edition(self.edition);
        let b = questions::is_on(self.count, self.number);
        let c = questions::is_within(self.deps, self.count);
        let d = self.stock <= MOST_CARS;
        let e = self.events <= MOST_RECORDS;
        a & b & c & d & e
    }

    fn is_other(self, zone: u8) -> bool
        ensures { result ≡ is_other self zone }
    {
        questions::is_on(self.count, zone) & (zone != self.number)
    }

    // An accepted step that sends no request.
    fn accepted(self, local: Local, flag: bool) -> Step
        ensures { step_answer self (Ok result) ≡ accepted (with_local self local) flag nobody nobody }
    {
        Step {
            zone: self.with_local(local),
            flag,
            to: 0,
            carried: 0,
        }
    }

    // An accepted step that may send requests.
    fn requesting(self, requesting: Requesting) -> Step
        ensures { step_answer self (Ok result) ≡ requesting_step self requesting }
    {
        Step {
            zone: self.with_local(requesting.local),
            flag: false,
            to: requesting.to,
            carried: requesting.carried,
        }
    }

    // A message ("hand-over") of some cars is sent to another zone.
    pub fn send(mut self, to: u8, cars: u8) -> Result<Step, Refusal>
        ensures { step_answer self result ≡ send_step self to cars }
    {
        if !self.is_sound() {
            return Err(Refusal::Unsound);
        }
        if !self.is_other(to) {
            return Err(Refusal::ZoneNames);
        }
        if MOST_RECORDS <= self.events {
            return Err(Refusal::RecordsFull);
        }
        if self.stock < cars as u16 {
            return Err(Refusal::StockTooLow);
        }
        let flag = local::has_checkpoint(self.checkpoint);
        let next = local::send(self.local(), self.edition, cars);
        Ok(self.accepted(next, flag))
    }

    // A message ("hand-over") with its flag is received from another zone.
    pub fn receive(mut self, from: u8, cars: u8, flag: bool) -> Result<Step, Refusal>
        ensures { step_answer self result ≡ receive_step self from cars flag }
    {
        if !self.is_sound() {
            return Err(Refusal::Unsound);
        }
        if !self.is_other(from) {
            return Err(Refusal::ZoneNames);
        }
        if MOST_RECORDS <= self.events {
            return Err(Refusal::RecordsFull);
        }
        if MOST_CARS - (cars as u16) < self.stock {
            return Err(Refusal::ZoneOverflow);
        }
        let next = local::receive(self.local(), self.edition, from - 1, cars, flag);
        Ok(self.accepted(next, false))
    }

    // A request with its set is received.
    pub fn request(mut self, set: u8) -> Result<Step, Refusal>
        ensures { step_answer self result ≡ request_step self set }
    {
        if !self.is_sound() {
            return Err(Refusal::Unsound);
        }
        if !questions::is_within(set, self.count) {
            return Err(Refusal::ZoneNames);
        }
        Ok(self.requesting(local::request(self.local(), self.number - 1, set)))
    }

    // A recording is started by this zone.
    pub fn start(mut self) -> Result<Step, Refusal>
        ensures { step_answer self result ≡ start_step self }
    {
        if !self.is_sound() {
            return Err(Refusal::Unsound);
        }
        if local::has_checkpoint(self.checkpoint) {
            return Err(Refusal::Started);
        }
        Ok(self.requesting(local::start(self.local(), self.number - 1)))
    }

    // Cars drive in from the street.
    pub fn enter(self, cars: u8) -> Result<Step, Refusal>
        ensures { step_answer self result ≡ gate_step self In cars }
    {
        self.gate(Direction::In, cars)
    }

    // Cars drive out to the street.
    pub fn leave(self, cars: u8) -> Result<Step, Refusal>
        ensures { step_answer self result ≡ gate_step self Out cars }
    {
        self.gate(Direction::Out, cars)
    }

    // Cars go through the gate: the step of both.
    fn gate(mut self, direction: Direction, cars: u8) -> Result<Step, Refusal>
        ensures { step_answer self result ≡ gate_step self direction cars }
    {
        if !self.is_sound() {
            return Err(Refusal::Unsound);
        }
        if !edition::has_gates(self.edition) {
            return Err(Refusal::Edition);
        }
        if MOST_RECORDS <= self.events {
            return Err(Refusal::RecordsFull);
        }
        pass(direction, cars, self.stock)?;
        let next = local::gate(self.local(), direction, cars);
        Ok(self.accepted(next, false))
    }
}

// The last question of a gate step: 20 of an entry, 7 of an exit.
fn pass(direction: Direction, cars: u8, stock: u16) -> Result<(), Refusal>
    ensures { refusal_in result ≡ refusal (last_gate_question direction cars stock ∷ []) }
{
    match direction {
        Direction::In if MOST_CARS - (cars as u16) < stock => Err(Refusal::ZoneOverflow),
        Direction::Out if stock < cars as u16 => Err(Refusal::StockTooLow),
        _ => Ok(()),
    }
}

fn opened(edition: u8, count: u8, number: u8, stock: u16) -> Zone
    requires { (1 ≤ number) × (number ≤ most_zones) }
    ensures { result ≡ Rattle.zone.specs.Zone.opened_zone edition count number stock }
{
    let first = local::open(number - 1, stock);
    Zone {
        edition,
        number,
        count,
        stock: first.stock,
        deps: first.deps,
        events: first.events,
        checkpoint: first.checkpoint,
    }
}

// The number of requests to be sent to the zones of a set: its ones.
pub fn requests(to: u8) -> u32
    ensures { result ≡ size to }
{
    u8::count_ones(to)
}

// The number of the zone to be sent to next of a set: its lowest.
pub fn next_of(set: u8) -> Option<u8>
    ensures { result ≡ Rattle.zone.specs.Zone.next_if set }
{
    if set == 0 {
        return None;
    }
    Some(u8::trailing_zeros(set) as u8 + 1)
}
