// The script program's whole behaviour: a text handled whole, or in pieces one after the other.
#![tactic(auto)]

ghost use Rattle.std.specs.Prelude.{◌≡◌, ℕ, ◌≤◌, ◌<◌, length, get_or};
ghost use Rattle.output.specs.Output.{output_fault, Prints};
ghost use Rattle.table.specs.Table.{Degrees};
ghost use Rattle.table.specs.Slices.{table_of, as_slices};
ghost use Rattle.script_theory.specs.Script.{end_text, script_output};
ghost use Rattle.script_steps.specs.Within.{under_way};
ghost use Rattle.script_output.specs.Handling.{piece_fault, HandlesPiece, end_call_fault};

use output::Output;
use script_steps::Progress;
use table::TableSlices;
use table::counted::CountedTable;

pub mod checked;

// A piece's answer: the length printed and how far the script has come, or the number of the refusal.
#[derive(Clone, Copy)]
pub enum Handling {
    Printed { length: usize, progress: Progress },
    Refused(u8),
}

// The fault of a piece: 8 for fewer than 16 bytes of `line`, the table's own, 20 to 22, and 8 where the output slice, of length `room`, does not hold what is printed.
// Five bytes for each byte held or given hold any output; else it is counted, on a copy of the record. Where there is no fault, each probe's links are counted.
fn piece_fault(
    table: TableSlices<'_>,
    rec: &[u8],
    line: &[u8],
    begun: Progress,
    piece: &[u8],
    room: usize,
    degrees: &mut [u16],
) -> u8
    requires { (begun.held ≤ 16) × (room < 9223372036854775808) × (length degrees.old ≡ 256) × ((v : ℕ) → get_or degrees.old v 0 ≡ 0) }
    ensures { let x = as_slices table.entry in
        (result ≡ piece_fault x (under_way begun rec.now line.now) piece.now (length line.now) room)
        × (result ≡ 0 → Degrees (table_of x) degrees.new) }
{
    if line.len() < 16 {
        return 8;
    }
    if let Err(refusal) = fleet_state::checks::check_state(table, rec, degrees) {
        return refusal.number();
    }
    if begun.held as usize + piece.len() <= room / 5 {
        return 0;
    }
    let counted = CountedTable { table, degrees };
    let length = script_pieces::pieces::count_piece(counted, rec, line, begun, piece);
    if room < length {
        return 8;
    }
    0
}

// Handles a piece of the text behind a table. `line` keeps an unfinished line from one piece to the next, in 16 bytes.
pub fn script_piece(
    table: TableSlices<'_>,
    rec: &mut [u8],
    line: &mut [u8],
    progress: Progress,
    piece: &[u8],
    out: &mut [u8],
) -> Handling
    ensures { HandlesPiece (as_slices table.entry) progress piece.now result rec.old rec.new line.old line.new out.old out.new }
{
    let begun = checked::begun(progress);
    let mut degrees = [0u16; 256];
    let fault = piece_fault(table, rec, line, begun, piece, out.len(), &mut degrees);
    if fault != 0 {
        return Handling::Refused(fault);
    }
    let counted = CountedTable {
        table,
        degrees: &degrees,
    };
    let place = checked::handle_piece(counted, rec, line, progress, piece, out);
    let reached = place.progress;
    Handling::Printed {
        length: place.at,
        progress: reached,
    }
}

// Prints what the text's end prints.
pub fn script_end(table: TableSlices<'_>, rec: &[u8], progress: Progress, out: &mut [u8]) -> Output
    ensures { let x = as_slices table.entry in
        let printed = end_text x rec.now progress.held progress.changed in
        Prints (end_call_fault x rec.now printed out.old) printed result out.old out.new }
{
    if out.len() < script_pieces::ending::end_length(progress.held) {
        return Output::Refused(8);
    }
    let mut degrees = [0u16; 256];
    if let Err(refusal) = fleet_state::checks::check_state(table, rec, &mut degrees) {
        return Output::Refused(refusal.number());
    }
    let length = script_pieces::ending::put_end(
        table.probes as usize,
        table.links as usize,
        table.needs,
        &degrees,
        table.lows,
        table.highs,
        rec,
        progress.held,
        progress.changed,
        out,
        0,
    );
    Output::Length(length)
}

// Prints what a whole text prints: a table and, behind its closing line, the script.
pub fn script_text(text: &[u8], out: &mut [u8]) -> Output
    ensures { let printed = script_output text.now in
        Prints (output_fault (length out.old) printed) printed result out.old out.new }
{
    let mut needs = [0u16; 256];
    let mut lows = [0u16; 2048];
    let mut highs = [0u16; 2048];
    let mut costs = [0u16; 2048];
    let read = table_read::read_table_prefix(text, &mut needs, &mut lows, &mut highs, &mut costs);
    match read {
        Ok(head) => script_pieces::whole::print_script(
            TableSlices {
                number: head.number,
                probes: head.probes,
                links: head.links,
                needs: &needs,
                lows: &lows,
                highs: &highs,
                costs: &costs,
            },
            &text[head.rest..],
            out,
        ),
        Err(refusal) => output::refusals::print_refusal(out, refusal.number()),
    }
}
