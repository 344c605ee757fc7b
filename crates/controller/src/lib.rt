// A controller's calls: it keeps its one zone and lends it to every call. Each runs the zone part's step by value and stores the next
// zone; the answer is the step's, and a refused step leaves the zone as it was. Opening a zone needs no loan: it is the zone part's own.

#![tactic(auto)]

ghost use Rattle.std.specs.Prelude.{◌≡◌};
ghost use Rattle.rules.specs.declared.Direction.TheVariants.{In, Out};
ghost use Rattle.zone.specs.Answer.{step_answer};
ghost use Rattle.zone.specs.Zone.{send_step, receive_step, request_step, start_step, gate_step};

use questions::Refusal;
use zone::{Step, Zone};

// A message ("hand-over") of some cars is sent to another zone.
pub fn send(zone: &mut Zone, to: u8, cars: u8) -> Result<Step, Refusal>
    ensures { (step_answer zone.old result ≡ send_step zone.old to cars) × (zone.new ≡ (send_step zone.old to cars).zone) }
{
    let sent = (*zone).send(to, cars)?;
    *zone = sent.zone;
    Ok(sent)
}

// A message ("hand-over") with its flag is received from another zone.
pub fn receive(zone: &mut Zone, from: u8, cars: u8, flag: bool) -> Result<Step, Refusal>
    ensures { (step_answer zone.old result ≡ receive_step zone.old from cars flag) × (zone.new ≡ (receive_step zone.old from cars flag).zone) }
{
    let received = (*zone).receive(from, cars, flag)?;
    *zone = received.zone;
    Ok(received)
}

// A request with its set is received.
pub fn request(zone: &mut Zone, set: u8) -> Result<Step, Refusal>
    ensures { (step_answer zone.old result ≡ request_step zone.old set) × (zone.new ≡ (request_step zone.old set).zone) }
{
    let requested = (*zone).request(set)?;
    *zone = requested.zone;
    Ok(requested)
}

// A recording is started by this zone.
pub fn start(zone: &mut Zone) -> Result<Step, Refusal>
    ensures { (step_answer zone.old result ≡ start_step zone.old) × (zone.new ≡ (start_step zone.old).zone) }
{
    let started = (*zone).start()?;
    *zone = started.zone;
    Ok(started)
}

// Cars drive in from the street.
pub fn enter(zone: &mut Zone, cars: u8) -> Result<Step, Refusal>
    ensures { (step_answer zone.old result ≡ gate_step zone.old In cars) × (zone.new ≡ (gate_step zone.old In cars).zone) }
{
    let entered = (*zone).enter(cars)?;
    *zone = entered.zone;
    Ok(entered)
}

// Cars drive out to the street.
pub fn leave(zone: &mut Zone, cars: u8) -> Result<Step, Refusal>
    ensures { (step_answer zone.old result ≡ gate_step zone.old Out cars) × (zone.new ≡ (gate_step zone.old Out cars).zone) }
{
    let left = (*zone).leave(cars)?;
    *zone = left.zone;
    Ok(left)
}
