// The zone part's calls under the names that C links (c/cut/zone.h), in a static library of their own: no crate can stand on one. Each is
// zone_c's function of its name, by the same clause.

#![tactic(auto)]

ghost use Rattle.std.specs.Prelude.{◌≡◌};
ghost use Rattle.rules.specs.Sets.{size};
ghost use Rattle.rules.specs.declared.Direction.TheVariants.{In, Out};
ghost use Rattle.zone.specs.Zone.{next_target};
ghost use Rattle.zone_c.specs.Plain.{open_plain, send_plain, receive_plain, request_plain, start_plain, gate_plain};

use zone_c::{PlainOpening, PlainStep, PlainZone};

// Opening one zone.
#[unsafe(no_mangle)]
pub extern "C" fn cut_zone_open(edition: u8, count: u8, number: u8, stock: u16) -> PlainOpening
    ensures { result ≡ open_plain edition count number stock }
{
    zone_c::cut_zone_open(edition, count, number, stock)
}

// A message ("hand-over") of some cars is sent to another zone.
#[unsafe(no_mangle)]
pub extern "C" fn cut_zone_send(p: PlainZone, to: u8, cars: u8) -> PlainStep
    ensures { result ≡ send_plain p to cars }
{
    zone_c::cut_zone_send(p, to, cars)
}

// A message ("hand-over") is received from another zone; any flag but 0 counts as 1.
#[unsafe(no_mangle)]
pub extern "C" fn cut_zone_receive(p: PlainZone, from: u8, cars: u8, flag: u8) -> PlainStep
    ensures { result ≡ receive_plain p from cars flag }
{
    zone_c::cut_zone_receive(p, from, cars, flag)
}

// A request with its set is received.
#[unsafe(no_mangle)]
pub extern "C" fn cut_zone_request(p: PlainZone, set: u8) -> PlainStep
    ensures { result ≡ request_plain p set }
{
    zone_c::cut_zone_request(p, set)
}

// A recording is started by this zone.
#[unsafe(no_mangle)]
pub extern "C" fn cut_zone_start(p: PlainZone) -> PlainStep
    ensures { result ≡ start_plain p }
{
    zone_c::cut_zone_start(p)
}

// Cars drive in from the street.
#[unsafe(no_mangle)]
pub extern "C" fn cut_zone_enter(p: PlainZone, cars: u8) -> PlainStep
    ensures { result ≡ gate_plain p In cars }
{
    zone_c::cut_zone_enter(p, cars)
}

// Cars drive out to the street.
#[unsafe(no_mangle)]
pub extern "C" fn cut_zone_leave(p: PlainZone, cars: u8) -> PlainStep
    ensures { result ≡ gate_plain p Out cars }
{
    zone_c::cut_zone_leave(p, cars)
}

// The number of requests to be sent to the zones of a set.
#[unsafe(no_mangle)]
pub extern "C" fn cut_zone_requests(to: u8) -> u32
    ensures { result ≡ size to }
{
    zone_c::cut_zone_requests(to)
}

// The number of the zone to be sent to next of a set; 0 where it is empty.
#[unsafe(no_mangle)]
pub extern "C" fn cut_zone_next(set: u8) -> u8
    ensures { result ≡ next_target set }
{
    zone_c::cut_zone_next(set)
}
