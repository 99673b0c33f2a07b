// A piece of a script whose table and record are already checked. `script_piece` goes on with these, and so does the script program, which checks its table once.
ghost use Rattle.std.specs.Prelude.{◌≡◌, cond, ◌≤◌, ltb, length};
ghost use Rattle.table.specs.Table.{Degrees};
ghost use Rattle.table.specs.Slices.{table_of, slices_fault, as_slices};
ghost use Rattle.fleet_theory.specs.Fleet.{fleet_fault};
ghost use Rattle.script_theory.specs.Script.{after_piece};
ghost use Rattle.script_output.specs.Handling.{before, HandlesPiece};
ghost use Rattle.script_output.specs.declared.Handling.TheVariants.{Printed};

use script_steps::{Place, Progress};
use table::counted::CountedTable;

// The progress that a piece goes on from: of an unfinished line at most 16 bytes are held.
pub fn begun(progress: Progress) -> Progress
    ensures { (result.used ≡ progress.used) × (result.held ≡ cond (ltb progress.held 16) progress.held 16) × (result.changed ≡ progress.changed) }
{
    if progress.held < 16 {
        return progress;
    }
    Progress {
        used: progress.used,
        held: 16,
        changed: progress.changed,
    }
}

// Handles a piece in a slice that holds its answers. Each probe's links are counted.
pub fn handle_piece(
    counted: CountedTable<'_>,
    rec: &mut [u8],
    line: &mut [u8],
    progress: Progress,
    piece: &[u8],
    out: &mut [u8],
) -> Place
    requires { let x = as_slices counted.table in
        (fleet_fault (table_of x) rec.old ≡ 0) × (16 ≤ length line.old) × (length (after_piece x 1024 (before progress rec.old line.old) piece.now).out ≤ length out.old) }
    ensures { HandlesPiece (as_slices counted.entry.table) progress piece.now (Printed result.at result.progress)
        rec.old rec.new line.old line.new out.old out.new }
{
    script_pieces::pieces::take_piece(counted, rec, line, begun(progress), piece, out)
}
