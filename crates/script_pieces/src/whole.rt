// A whole script: the lines behind a table and the end.
ghost use Rattle.std.specs.Prelude.{◌≡◌, ◌≤◌, ◌<◌, leb, length};
ghost use Rattle.std.proofs.lemmas.List.Edits.{sets};
ghost use Rattle.table.specs.Table.{Degrees};
ghost use Rattle.table.specs.Slices.{slices_fault, table_of, as_slices};
ghost use Rattle.output.specs.Output.{output_fault, Prints};
ghost use Rattle.script_lines.specs.Fitting.{capped};
ghost use Rattle.script_theory.specs.Script.{script_text};

use output::Output;
use script_steps::{Place, Progress};
use table::TableSlices;
use table::counted::CountedTable;

// A script's start: nothing is printed, used, held or changed.
fn begin() -> Place
    ensures { (result.at ≡ 0) × (result.progress.used ≡ 0) × (result.progress.held ≡ 0) × (result.progress.changed ≡ 0) }
{
    Place {
        at: 0,
        progress: Progress {
            used: 0,
            held: 0,
            changed: 0,
        },
    }
}

// The lines behind a table, all of them, and the end, printed as far as they fit. Answers their length.
fn put_script(counted: CountedTable<'_>, text: &[u8], out: &mut [u8]) -> usize
    ensures { let printed = script_text (as_slices counted.entry.table) 1024 text.now in
        (result ≡ capped (length printed)) × (length printed ≤ length out.old → out.new ≡ sets out.old 0 printed) }
{
    let table = counted.table;
    let links = table.links as usize;
    let mut bytes = [0u8; 16384];
    let rec = &mut bytes[..8 * links];
    let start = begin();
    let closed = script_steps::steps::take_lines(counted, rec, text, out, start);
    let place = closed.place;
    let p = place.progress;
    let mut unclosed = 0;
    if closed.rest < text.len() {
        unclosed = 1;
    }
    super::ending::put_end(
        table.probes as usize,
        links,
        table.needs,
        counted.degrees,
        table.lows,
        table.highs,
        rec,
        unclosed,
        p.changed,
        out,
        place.at,
    )
}

// Whether a slice of this length holds what the lines behind a table print. Five bytes for each byte, and 11, hold any output; else it is counted.
fn script_fits(counted: CountedTable<'_>, text: &[u8], room: usize) -> bool
    requires { room < 9223372036854775808 }
    ensures { result ≡ leb (length (script_text (as_slices counted.entry.table) 1024 text.now)) room }
{
    if text.len() + 3 <= room / 5 {
        return true;
    }
    let mut none = [0u8; 1];
    let length = put_script(counted, text, &mut none[..0]);
    length <= room
}

// Prints the lines behind a table, all of them, and the end.
pub fn print_script(table: TableSlices<'_>, text: &[u8], out: &mut [u8]) -> Output
    requires { slices_fault (as_slices table) ≡ 0 }
    ensures { let printed = script_text (as_slices table.entry) 1024 text.now in
        Prints (output_fault (length out.old) printed) printed result out.old out.new }
{
    let links = table.links as usize;
    let mut degrees = [0u16; 256];
    table::degrees::count_degrees(&mut degrees, links, table.lows, table.highs);
    let counted = CountedTable {
        table,
        degrees: &degrees,
    };
    if !script_fits(counted, text, out.len()) {
        return Output::Refused(8);
    }
    Output::Length(put_script(counted, text, out))
}
