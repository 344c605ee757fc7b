// The types and limits that the rules of mutable checkpointing speak of. The rules themselves are definitions (specs/), to be read beside
// docs/RULES.md, sections 3 to 5 and demand 3, and the theorem over them stands in proofs/; this crate has no function but the derived ones.

#![tactic(auto)]

// The limits (docs/RULES.md, section 2) by their names in specs/Limits.antt, each in the type of the number that it bounds.
pub const FEWEST_ZONES: u8 = 2;

pub const MOST_ZONES: u8 = 8;

pub const MOST_CARS: u16 = 65535;

pub const MOST_RECORDS: u16 = 1000;

// `most_cars` as the bound of a sum, which is computed in 32 bits.
pub const MOST_SUM: u32 = MOST_CARS as u32;

// `places` as the most items that a channel holds.
pub const MOST_ITEMS: u8 = 16;

// `most_zones`, `places` and `most_records` as lengths of arrays.
pub const ZONES: usize = MOST_ZONES as usize;

pub const PLACES: usize = MOST_ITEMS as usize;

pub const RECORDS: usize = MOST_RECORDS as usize;

// The ways through a gate ("direction"): cars drive in from the street, or out to it.
#[derive(Clone, Copy, Debug, PartialEq, Eq)]
pub enum Direction {
    In,
    Out,
}

// The stock and the number of own events that a checkpoint keeps.
#[derive(Clone, Copy, Debug, PartialEq, Eq)]
pub struct Saved {
    pub stock: u16,
    pub events: u16,
}

// A checkpoint ("mark"): none, mutable ("provisional") or permanent ("firm").
#[derive(Clone, Copy, Debug, PartialEq, Eq)]
pub enum Checkpoint {
    None,
    Mutable(Saved),
    Permanent(Saved),
}

// The local state of one zone (docs/RULES.md, section 3). Its number, the zone count and the edition stand beside it.
#[derive(Clone, Copy, Debug, PartialEq, Eq)]
pub struct Local {
    pub stock: u16,
    pub deps: u8,
    pub events: u16,
    pub checkpoint: Checkpoint,
}
