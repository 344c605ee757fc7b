// The questions (docs/RULES.md, section 7): a refusal names the one that was answered no; those that several parts ask are functions, over
// numbers alone.

#![tactic(auto, unfolding(rules::specs::Questions::is_count, rules::specs::Questions::is_on, rules::specs::Sets::within))]

ghost use Rattle.std.specs.Prelude.{◌≡◌, ◌≤◌};
ghost use Rattle.rules.specs.Limits.{most_zones};
ghost use Rattle.rules.specs.Questions.{is_count, is_on};
ghost use Rattle.rules.specs.Sets.{within};
ghost use Rattle.questions.specs.Refusal.{number_of};

use rules::{FEWEST_ZONES, MOST_ZONES};

// Why a call was refused: the first question that was answered no, each by its number.
#[derive(Clone, Copy, Debug, PartialEq, Eq)]
pub enum Refusal {
    Unsound = 1,
    ZoneCount = 2,
    StockCount = 3,
    StockSum = 4,
    ZoneNames = 5,
    RecordsFull = 6,
    StockTooLow = 7,
    ChannelFull = 8,
    ChannelEmpty = 9,
    RequestChannelFull = 10,
    Started = 11,
    NotStarted = 12,
    RequestsUnderWay = 13,
    BytesTooFew = 14,
    Edition = 15,
    HeaderFields = 16,
    Length = 17,
    Malformed = 18,
    NotAccepted = 19,
    ZoneOverflow = 20,
    SiteOverflow = 21,
    EmptyMessage = 22,
    UnknownKind = 23,
}

impl Refusal {
    // The question's number, by which C and the programs name a refusal.
    pub fn number(self) -> u8
        ensures { result ≡ number_of self }
    {
        self as u8
    }
}

// Question 2: whether a site has so many zones.
pub fn is_count(count: u8) -> bool
    ensures { result ≡ is_count count }
{
    (FEWEST_ZONES <= count) & (count <= MOST_ZONES)
}

// Question 5, of one named zone: whether it is on a site of `count` zones.
pub fn is_on(count: u8, zone: u8) -> bool
    ensures { result ≡ is_on count zone }
{
    (1 <= zone) & (zone <= count)
}

// Whether a set names only zones of a site of `count` zones. Zone and scan call it behind question 2. With 8 zones every
// set does; a shift by 8 needs more than 8 bits.
pub fn is_within(set: u8, count: u8) -> bool
    requires { count ≤ most_zones }
    ensures { result ≡ within set count }
{
    (set as u16) >> count == 0
}
