// The script program: reads a table and the script lines behind it, and prints their answers as they come. It keeps the table, the record and at most 16 bytes of an unfinished line.
#![tactic(auto)]

ghost use Rattle.std.specs.Prelude.{◌≡◌, ◌≤◌, true, length, take};
ghost use Rattle.table.specs.Slices.{slices_fault, as_slices};
ghost use Rattle.output.specs.Output.{refusal_line, Prints};
ghost use Rattle.output.specs.declared.Output.TheVariants.{Length};
ghost use Rattle.script.specs.Writing.{AnswersInput, left_to_write, WritesEnding, WritesBehind, WritesAll};

use output::Output;
use script_reads::Stop;
use script_reads::reads::{UNREAD, end, handle_all, write};
use script_table::input::read_table_text;
use standard_io::Filling;
use std::io::{Read, Write};
use table::TableSlices;
use table::counted::CountedTable;
use table::degrees::count_degrees;

// What is left to write: what the text's end printed; nothing where a read or write failed.
#[derive(Clone, Copy)]
enum Ending {
    Printed(usize),
    Failed,
}

// Prints the refusal of the table.
fn refuse(fault: u8, out: &mut [u8]) -> usize
    requires { 5 ≤ length out.old }
    ensures { Prints 0 (refusal_line fault) (Length result) out.old out.new }
{
    match output::refusals::print_refusal(out, fault) {
        Output::Length(length) => length,
        Output::Refused(_) => 0,
    }
}

// Answers the script behind a table and prints its end.
fn answer_script<R: Read, W: Write, E: Write>(
    input: &mut R,
    output: &mut W,
    errors: &mut E,
    table: TableSlices<'_>,
    text: &mut [u8],
    out: &mut [u8],
) -> Ending
    requires { (slices_fault (as_slices table) ≡ 0)
        × (length text.old ≤ 4096) × (20560 ≤ length out.old) }
    ensures { AnswersInput (as_slices table.entry) result out.new (length text.old)
        (R.remaining input.old) (R.remaining input.new) (W.contents output.old) (W.contents output.new) }
{
    let mut bytes = [0u8; 16384];
    let rec = &mut bytes[..8 * (table.links as usize)];
    let mut line = [0u8; 16];
    let mut degrees = [0u16; 256];
    count_degrees(&mut degrees, table.links as usize, table.lows, table.highs);
    let counted = CountedTable {
        table,
        degrees: &degrees,
    };
    match handle_all(input, output, errors, counted, rec, &mut line, text, out) {
        Stop::AtEnd(progress) => Ending::Printed(end(table, rec, progress, out)),
        Stop::Failed => Ending::Failed,
    }
}

// Writes what is left to write, and answers whether all was written.
fn write_ending<W: Write, E: Write>(
    output: &mut W,
    errors: &mut E,
    ending: Ending,
    out: &[u8],
) -> bool
    requires { left_to_write ending ≤ length out.now }
    ensures { result ≡ true → WritesEnding ending out.now (W.contents output.old) (W.contents output.new) }
{
    match ending {
        Ending::Printed(length) => write(output, errors, &out[..length]),
        Ending::Failed => false,
    }
}

// Reads a table from the first n bytes; answers the script behind it, or refuses it.
fn answer_text<R: Read, W: Write, E: Write>(
    input: &mut R,
    output: &mut W,
    errors: &mut E,
    text: &mut [u8],
    n: usize,
) -> bool
    requires { (n ≤ length text.old) × (4096 ≤ length text.old) }
    ensures { result ≡ true → WritesBehind (take n text.old) (R.remaining input.old) (W.contents output.old) (W.contents output.new) }
{
    let mut needs = [0u16; 256];
    let mut lows = [0u16; 2048];
    let mut highs = [0u16; 2048];
    let mut costs = [0u16; 2048];
    let mut out = [0u8; 20560];
    let read = table_read::read_table_prefix(
        &text[..n],
        &mut needs,
        &mut lows,
        &mut highs,
        &mut costs,
    );
    match read {
        Ok(head) => {
            let ending = answer_script(
                input,
                output,
                errors,
                TableSlices {
                    number: head.number,
                    probes: head.probes,
                    links: head.links,
                    needs: &needs,
                    lows: &lows,
                    highs: &highs,
                    costs: &costs,
                },
                &mut text[..4096],
                &mut out,
            );
            write_ending(output, errors, ending, &out)
        }
        Err(refusal) => {
            let length = refuse(refusal.number(), &mut out);
            write(output, errors, &out[..length])
        }
    }
}

// Reads a table and the script behind it, and writes what they print. Answers whether all was read and written.
fn answer<R: Read, W: Write, E: Write>(input: &mut R, output: &mut W, errors: &mut E) -> bool
    ensures { result ≡ true → WritesAll (R.remaining input.old) (W.contents output.old) (W.contents output.new) }
{
    let mut text = [0u8; 27922];
    match read_table_text(input, &mut text) {
        Filling::Until(n) => answer_text(input, output, errors, &mut text, n),
        Filling::Failed => {
            standard_io::write_error(errors, &UNREAD);
            false
        }
    }
}

fn main(rt: HostRuntime) {
    answer(&mut rt.stdin(), &mut rt.stdout(), &mut rt.stderr());
}
