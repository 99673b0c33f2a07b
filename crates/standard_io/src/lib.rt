// Standard input, output and error for the programs, or any other reader and writer. A failed read is told from the end of the input, and a failed write from one that is done.
#![tactic(auto)]

ghost use Rattle.std.specs.Prelude.{◌≡◌, true, length};
ghost use Rattle.std.specs.Io.KnownBytes.{Appends};
ghost use Rattle.standard_io.specs.Reading.{GotWithin, GotOf, Fills, FilledOf};

use std::io::{Read, Write};

#[cfg(test)]
mod tests;

// What a read gave: so many bytes at the buffer's start, the end of the input, or nothing because it failed.
#[derive(Clone, Copy)]
pub enum Got {
    Bytes(usize),
    End,
    Failed,
}

// Where the bytes end that fill a buffer, or that a read failed.
#[derive(Clone, Copy)]
pub enum Filling {
    Until(usize),
    Failed,
}

// Reads once.
pub fn read_some<R: Read>(input: &mut R, buf: &mut [u8]) -> Got
    ensures within { GotWithin (length buf.old) result }
    ensures bytes { GotOf (R.remaining input.old) (R.remaining input.new) buf.new result }
{
    match input.read(buf) {
        Ok(0) => Got::End,
        Ok(n) => Got::Bytes(n),
        Err(_) => Got::Failed,
    }
}

// Reads from an offset on until the buffer is full or the input ends. Each read that goes on gives a byte, so the bytes that are left fall.
pub fn fill<R: Read>(input: &mut R, buf: &mut [u8], from: usize) -> Filling
    ensures fills { Fills from result buf.old buf.new }
    ensures bytes { FilledOf (R.remaining input.old) (R.remaining input.new) from buf.new result }
{
    let mut at = from;
    while at < buf.len() {
        match read_some(input, &mut buf[at..]) {
            Got::Bytes(n) => {
                at += n;
            }
            Got::End => {
                return Filling::Until(at);
            }
            Got::Failed => {
                return Filling::Failed;
            }
        }
    }
    Filling::Until(at)
}

// Writes all of it, or answers false. What is written, the system tells alone.
pub fn write_output<W: Write>(output: &mut W, bytes: &[u8]) -> bool
    ensures nothing { length bytes.now ≡ 0 → result ≡ true }
    ensures bytes { result ≡ true → Appends (W.contents output.old) (W.contents output.new) bytes.now }
{
    if bytes.len() == 0 {
        return true;
    }
    output.write_all(bytes).is_ok()
}

// Writes a line on standard error; nothing is left to tell where that fails.
pub fn write_error<W: Write>(errors: &mut W, line: &[u8]) -> bool
    ensures nothing { length line.now ≡ 0 → result ≡ true }
    ensures bytes { result ≡ true → Appends (W.contents errors.old) (W.contents errors.new) line.now }
{
    if line.len() == 0 {
        return true;
    }
    errors.write_all(line).is_ok()
}
