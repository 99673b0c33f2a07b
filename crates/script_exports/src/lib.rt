// The library of scripts for C and Rust: whole, in pieces, and the end.
#![tactic(auto)]

ghost use Rattle.std.specs.Prelude.{length};
ghost use Rattle.table.specs.Slices.{slices_of};
ghost use Rattle.output.specs.Output.{output_fault};
ghost use Rattle.script_theory.specs.Script.{end_text, script_output};
ghost use Rattle.script_output.specs.Handling.{end_call_fault};
ghost use Rattle.packed_answers.specs.Packed.{PrintsPacked};
ghost use Rattle.script_exports.specs.Packed.{HandlesPiecePacked};

use packed_answers::ANSWER_BASE;
use packed_answers::printed::packed_output;
use script_output::Handling;
use script_steps::Progress;
use table::TableSlices;

// `script_output::script_text`, its answer packed.
#[unsafe(no_mangle)]
pub extern "C" fn planner_script_text(text: &[u8], out: &mut [u8]) -> u64
    ensures { let printed = script_output text.now in
        PrintsPacked (output_fault (length out.old) printed) printed result out.old out.new }
{
    packed_output(script_output::script_text(text, out))
}

// `script_output::script_piece`, its answer packed; `numbers` has the script's progress: entries used, bytes held, changes.
#[unsafe(no_mangle)]
pub extern "C" fn planner_script_piece(
    number: u16,
    probes: u16,
    links: u16,
    needs: &[u16],
    lows: &[u16],
    highs: &[u16],
    costs: &[u16],
    rec: &mut [u8],
    line: &mut [u8],
    numbers: &mut [u32],
    piece: &[u8],
    out: &mut [u8],
) -> u64
    ensures { let x = slices_of number probes links needs.now lows.now highs.now costs.now in
        HandlesPiecePacked x piece.now result rec.old rec.new line.old line.new
        numbers.old numbers.new out.old out.new }
{
    let table = TableSlices {
        number,
        probes,
        links,
        needs,
        lows,
        highs,
        costs,
    };
    if numbers.len() < 3 {
        return 8;
    }
    let progress = Progress {
        used: numbers[0],
        held: numbers[1],
        changed: numbers[2],
    };
    let handled = script_output::script_piece(table, rec, line, progress, piece, out);
    match handled {
        Handling::Printed {
            length,
            progress: next,
        } => {
            numbers[0] = next.used;
            numbers[1] = next.held;
            numbers[2] = next.changed;
            length as u64 + ANSWER_BASE
        }
        Handling::Refused(refusal) => refusal as u64,
    }
}

// `script_output::script_end`, its answer packed.
#[unsafe(no_mangle)]
pub extern "C" fn planner_script_end(
    number: u16,
    probes: u16,
    links: u16,
    needs: &[u16],
    lows: &[u16],
    highs: &[u16],
    costs: &[u16],
    rec: &[u8],
    held: u32,
    changed: u32,
    out: &mut [u8],
) -> u64
    ensures { let x = slices_of number probes links needs.now lows.now highs.now costs.now in
        let printed = end_text x rec.now held changed in
        PrintsPacked (end_call_fault x rec.now printed out.old) printed result out.old out.new }
{
    let table = TableSlices {
        number,
        probes,
        links,
        needs,
        lows,
        highs,
        costs,
    };
    let progress = Progress {
        used: 0,
        held,
        changed,
    };
    packed_output(script_output::script_end(table, rec, progress, out))
}
