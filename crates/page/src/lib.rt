// The page for the wall: what a recording shows, as text for a person (docs/RULES.md, section 8).

#![tactic(auto)]

use rules::ZONES;

// A line of the page: 16 characters and a line feed.
pub const LINE_BYTES: usize = 17;

// Bytes that are enough for any page (`page-most`): a line for each zone, one for each channel between two of them, and one for the total.
pub const PAGE_BYTES: usize = LINE_BYTES * (ZONES + ZONES * (ZONES - 1) + 1);
