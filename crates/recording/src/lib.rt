// The recording of a run, written as bytes (docs/RULES.md, sections 5 and 8).

#![tactic(auto)]

use rules::{RECORDS, ZONES};

// What the firm bit, of a permanent checkpoint, weighs in a zone's first word.
pub const PERMANENT_WEIGHT: u16 = 32768;

// The number of values of the events' field, in the same word.
pub const EVENTS_VALUES: u16 = 1024;

// The bytes of the longest recording (`recording-most`): a header word, two words for each zone, a word for each item, and no item is
// without its record.
pub const RECORDING_BYTES: usize = 2 + 4 * ZONES + 2 * RECORDS;

// What an accepted recording tells: the number of bytes written, and the recorded total: the recorded stocks and the recorded cars on
// channels.
#[derive(Clone, Copy)]
pub struct Recording {
    pub written: usize,
    pub total: u32,
}
