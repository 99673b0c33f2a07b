// The steps of a script, on a table and a record that are already checked.
ghost use Rattle.std.specs.Prelude.{◌≡◌, [], ◌+◌, ◌≤◌, length};
ghost use Rattle.fleet_theory.specs.Fleet.{fleet_fault};
ghost use Rattle.table.specs.Table.{Degrees};
ghost use Rattle.table.specs.Slices.{slices_fault, table_of, as_slices};
ghost use Rattle.output.specs.Output.{refusal_line};
ghost use Rattle.script_lines.specs.Fitting.{capped, stored_within};
ghost use Rattle.script_theory.specs.Script.{after_line};
ghost use Rattle.script_steps.specs.Within.{under_way, Buffered};
ghost use Rattle.script_steps.specs.Closing.{Closed};

use super::{Lines, Place, Progress};
use table::counted::CountedTable;

// A line, or 16 bytes of a longer one, to a fleet whose table and record are already checked; its answer is printed from an offset on, where it fits.
pub fn answer_line(
    counted: CountedTable<'_>,
    rec: &mut [u8],
    line: &[u8],
    out: &mut [u8],
    place: Place,
) -> Place
    requires { (fleet_fault (table_of (as_slices counted.table)) rec.old ≡ 0) × (place.at ≤ 9223372036854775808) }
    ensures { Buffered (after_line (as_slices counted.entry.table) 1024 (under_way place.progress rec.old []) line.now)
        place.at result rec.new [] out.old out.new }
{
    let progress = place.progress;
    let answer = fleet::steps::handle_line(counted, rec, line, progress.used as usize, 1024);
    Place {
        at: script_lines::answers::put_answer(out, place.at, answer),
        progress: Progress {
            used: super::numbers::add_used(progress.used, answer),
            held: 0,
            changed: super::numbers::add_changes(progress.changed, answer),
        },
    }
}

// A line that is not of a frame's length is refused by 1.
fn refuse_line(out: &mut [u8], place: Place) -> Place
    requires { place.at ≤ 9223372036854775808 }
    ensures { (out.new ≡ stored_within out.old place.at (refusal_line 1)) × (result.at ≡ capped (place.at + 5))
        × (result.progress ≡ record { used = place.progress.used; held = 0; changed = place.progress.changed }) }
{
    let progress = place.progress;
    Place {
        at: script_lines::answers::put_refused(out, place.at, 1),
        progress: Progress {
            used: progress.used,
            held: 0,
            changed: progress.changed,
        },
    }
}

// The lines that a piece closes, where no byte of its first line is held.
pub fn take_lines(
    counted: CountedTable<'_>,
    rec: &mut [u8],
    piece: &[u8],
    out: &mut [u8],
    start: Place,
) -> Lines
    requires { (fleet_fault (table_of (as_slices counted.table)) rec.old ≡ 0)
        × (start.progress.held ≡ 0) × (start.at ≤ 9223372036854775808) }
    ensures { Closed (as_slices counted.entry.table) (under_way start.progress rec.old []) piece.now start.at result rec.new [] out.old out.new }
{
    let mut place = start;
    let mut at = 0;
    let mut next = super::line_bytes::line_end(piece, 0);
    while at < next {
        if next - at != 15 {
            place = refuse_line(out, place);
        } else {
            place = answer_line(counted, rec, &piece[at..next], out, place);
        }
        at = next;
        next = super::line_bytes::line_end(piece, at);
    }
    Lines { place, rest: at }
}
