// Reads from standard input or any other reader, handled one after the other.
ghost use Rattle.std.specs.Prelude.{◌≡◌, ◌≤◌, true, length};
ghost use Rattle.std.specs.Io.KnownBytes.{Appends};
ghost use Rattle.table.specs.Table.{Degrees};
ghost use Rattle.table.specs.Slices.{table_of, slices_fault, as_slices};
ghost use Rattle.fleet_theory.specs.Fleet.{fleet_fault, start};
ghost use Rattle.output.specs.Output.{Prints};
ghost use Rattle.output.specs.declared.Output.TheVariants.{Length};
ghost use Rattle.script_theory.specs.Script.{end_text};
ghost use Rattle.script_output.specs.Handling.{end_call_fault};
ghost use Rattle.script_reads.specs.Handled.{HandlesInput};

use super::Stop;
use output::Output;
use script_steps::Progress;
use standard_io::Got;
use std::io::{Read, Write};
use table::TableSlices;
use table::counted::CountedTable;

pub const UNREAD: [u8; 36] = *b"script: the input could not be read\n";

const UNWRITTEN: [u8; 40] = *b"script: the output could not be written\n";

// Writes what is printed, or says that it could not.
pub fn write<W: Write, E: Write>(output: &mut W, errors: &mut E, printed: &[u8]) -> bool
    ensures { result ≡ true → Appends (W.contents output.old) (W.contents output.new) printed.now }
{
    if !standard_io::write_output(output, printed) {
        standard_io::write_error(errors, &UNWRITTEN);
        return false;
    }
    true
}

// Handles the text behind a table, as each reading gives it; the table was checked when it was read, and each probe's links are counted. A proved loop has to end, and nothing says that the input does: the turns end at a number that no run comes to.
pub fn handle_all<R: Read, W: Write, E: Write>(
    input: &mut R,
    output: &mut W,
    errors: &mut E,
    counted: CountedTable<'_>,
    rec: &mut [u8],
    line: &mut [u8],
    text: &mut [u8],
    out: &mut [u8],
) -> Stop
    requires { (rec.old ≡ (start (as_slices counted.table)).bytes)
        × (16 ≤ length line.old) × (length text.old ≤ 4096) × (20560 ≤ length out.old) }
    ensures { HandlesInput (as_slices counted.entry.table) result line.old rec.new line.new (length text.old)
        (R.remaining input.old) (R.remaining input.new) (W.contents output.old) (W.contents output.new) }
{
    let mut progress = Progress {
        used: 0,
        held: 0,
        changed: 0,
    };
    for _ in 0..u64::MAX {
        match standard_io::read_some(input, text) {
            Got::Bytes(n) => {
                let place = script_output::checked::handle_piece(
                    counted,
                    rec,
                    line,
                    progress,
                    &text[..n],
                    out,
                );
                progress = place.progress;
                let length = place.at;
                if !write(output, errors, &out[..length]) {
                    return Stop::Failed;
                }
            }
            Got::End => return Stop::AtEnd(progress),
            Got::Failed => {
                standard_io::write_error(errors, &UNREAD);
                return Stop::Failed;
            }
        }
    }
    Stop::Failed
}

// Prints what the text's end prints.
pub fn end(table: TableSlices<'_>, rec: &[u8], progress: Progress, out: &mut [u8]) -> usize
    requires { let x = as_slices table in
        (slices_fault x ≡ 0) × (fleet_fault (table_of x) rec.now ≡ 0) × (16 ≤ length out.old) }
    ensures { let x = as_slices table.entry in
        let printed = end_text x rec.now progress.held progress.changed in
        Prints (end_call_fault x rec.now printed out.old) printed (Length result) out.old out.new }
{
    let printed = script_output::script_end(table, rec, progress, out);
    match printed {
        Output::Length(length) => length,
        Output::Refused(_) => 0,
    }
}
