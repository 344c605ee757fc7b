// Reads states of the channels, each the 64 lengths, the index of a zone and a set, and prints for each what the search for a full channel
// answers. No call shows the zone that it names: here the function itself runs, beside the second implementation.

#![tactic(auto)]

use channel::CHANNELS;
use rules::ZONES;
use std::io::{Read, Write};

// The zone that is named, as a digit on a line, 0 where none is. For a sender that no site has, or an answer of two digits, the line would be
// missing, and the gate's comparison fail.
fn print(output: &mut impl Write, lens: &[u8; CHANNELS], from: u8, to: u8) {
    let at = from as usize;
    if ZONES <= at {
        return;
    }
    let zone = channel::highest_full(lens, at, to).unwrap_or(0);
    if zone < 10 {
        let line = [b'0' + zone, b'\n'];
        let _ = output.write_all(&line);
    }
}

// One state and its line; whether there was one.
fn one(input: &mut impl Read, output: &mut impl Write) -> bool {
    let mut lens = [0u8; CHANNELS];
    let mut asked = [0u8; 2];
    if input.read_exact(&mut lens).is_err() || input.read_exact(&mut asked).is_err() {
        return false;
    }
    print(output, &lens, asked[0], asked[1]);
    true
}

// More turns than the gate has states.
fn main(rt: HostRuntime) {
    let mut input = rt.stdin();
    let mut output = rt.stdout();
    for _ in 0..1000000u32 {
        if !one(&mut input, &mut output) {
            return;
        }
    }
}
