// Argument, standard input and output of the programs: the input is read until it ends or the space is full, and an answer written whole. Where a
// read or a write fails it is said on standard error, and the programs end with status 0 all the same.

#![tactic(auto)]

ghost use Rattle.std.specs.Prelude.{◌≡◌, ℕ, ◌<◌, ◌≤◌, length, take, Ok};
ghost use Rattle.std.specs.Io.KnownBytes.{Consumes, IsAtEnd};

use std::env::{Env, FillError};
use std::io;
use std::io::{Read, Write};

// Reads until the input ends or the space is full. A read that a signal interrupts counts as failed too.
fn read_all<I: Read>(input: &mut I, space: &mut [u8]) -> io::Result<usize>
    ensures within { (n : ℕ) → result ≡ Ok n → n ≤ length space.new }
    ensures bytes { (n : ℕ) → result ≡ Ok n → Consumes (I.remaining input.old) (I.remaining input.new) (take n space.new) }
    ensures end { (n : ℕ) → result ≡ Ok n → n < length space.new → IsAtEnd (I.remaining input.new) }
{
    let mut at = 0;
    while at < space.len() {
        match input.read(&mut space[at..])? {
            0 => return Ok(at),
            n => at += n,
        }
    }
    Ok(at)
}

// The same for the program of this name, which says where a read fails.
pub fn read<I: Read>(
    input: &mut I,
    errors: &mut impl Write,
    program: &[u8],
    space: &mut [u8],
) -> io::Result<usize>
    ensures within { (n : ℕ) → result ≡ Ok n → n ≤ length space.new }
    ensures bytes { (n : ℕ) → result ≡ Ok n → Consumes (I.remaining input.old) (I.remaining input.new) (take n space.new) }
    ensures end { (n : ℕ) → result ≡ Ok n → n < length space.new → IsAtEnd (I.remaining input.new) }
{
    let got = read_all(input, space);
    if got.is_err() {
        say(errors, program);
        say(errors, b": standard input could not be read\n");
    }
    got
}

// Writes an answer of the program of this name, which says where not all of it was written.
pub fn write(output: &mut impl Write, errors: &mut impl Write, program: &[u8], answer: &[u8]) {
    if output.write_all(answer).is_err() {
        say(errors, program);
        say(errors, b": the answer was not written whole\n");
    }
}

// Writes a text to standard error: a refusal that must not stand in the answer, or how a program is called.
pub fn say(errors: &mut impl Write, text: &[u8]) {
    let _ = errors.write_all(text);
}

// The program's one argument, at the front of the space: its length, or 0 where there is none, more than one, or one that is longer than the
// space. Which bytes it has no contract can say.
pub fn argument(rt: &impl Env, space: &mut [u8]) -> usize
    ensures { result ≤ length space.new }
{
    if let Err(FillError::NotPresent) = rt.arg(2, &mut []) {
        return rt.arg(1, space).unwrap_or(0);
    }
    0
}
