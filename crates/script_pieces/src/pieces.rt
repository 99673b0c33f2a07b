// A piece of a script, line by line. A line that lies whole in the piece is answered where it stands.
ghost use Rattle.std.specs.Prelude.{◌≡◌, ◌++◌, ◌≤◌, length, take, drop};
ghost use Rattle.fleet_theory.specs.Fleet.{fleet_fault};
ghost use Rattle.table.specs.Table.{Degrees};
ghost use Rattle.table.specs.Slices.{slices_fault, table_of, as_slices};
ghost use Rattle.script_lines.specs.Fitting.{capped};
ghost use Rattle.script_theory.specs.Script.{after_piece};
ghost use Rattle.script_steps.specs.Within.{under_way, Buffered};
ghost use Rattle.script_steps.specs.Closing.{closed_length, Closed};

use script_steps::{Lines, Place, Progress};
use table::counted::CountedTable;

// The line that the piece shares with those before it, where it closes one. 16 bytes tell of a longer line that it is too long.
fn take_shared(
    counted: CountedTable<'_>,
    rec: &mut [u8],
    line: &[u8],
    progress: Progress,
    piece: &[u8],
    out: &mut [u8],
) -> Lines
    requires { (fleet_fault (table_of (as_slices counted.table)) rec.old ≡ 0)
        × (progress.held ≤ 16) × (progress.held ≤ length line.now) }
    ensures { (result.rest ≤ length piece.now) × ((result.place.progress.held ≡ 0 → ⊥) → closed_length (drop result.rest piece.now) ≡ 0)
        × Buffered (after_piece (as_slices counted.entry.table) 1024 (under_way progress rec.old line.now) (take result.rest piece.now))
        0 result.place rec.new line.now out.old out.new }
{
    let start = Place { at: 0, progress };
    let held = progress.held as usize;
    if held == 0 {
        return Lines {
            place: start,
            rest: 0,
        };
    }
    let end = script_steps::line_bytes::line_end(piece, 0);
    if end == 0 {
        return Lines {
            place: start,
            rest: 0,
        };
    }
    let mut joined = [0u8; 16];
    script_steps::line_bytes::copy(&mut joined, 0, line, held);
    let n = script_steps::line_bytes::append(&mut joined, held, &piece[..end]);
    let place = script_steps::steps::answer_line(counted, rec, &joined[..n], out, start);
    Lines { place, rest: end }
}

// All lines that a piece closes.
fn take_closed(
    counted: CountedTable<'_>,
    rec: &mut [u8],
    line: &[u8],
    progress: Progress,
    piece: &[u8],
    out: &mut [u8],
) -> Lines
    requires { (fleet_fault (table_of (as_slices counted.table)) rec.old ≡ 0)
        × (progress.held ≤ 16) × (progress.held ≤ length line.now) }
    ensures { Closed (as_slices counted.entry.table) (under_way progress rec.old line.now) piece.now 0 result rec.new line.now out.old out.new }
{
    let first = take_shared(counted, rec, line, progress, piece, out);
    let reached = first.place;
    let p = reached.progress;
    if p.held != 0 {
        return first;
    }
    let end = first.rest;
    let behind = script_steps::steps::take_lines(counted, rec, &piece[end..], out, reached);
    let place = behind.place;
    Lines {
        place,
        rest: end + behind.rest,
    }
}

// A piece of the script, printed from the start of the buffer as far as it fits, and counted beyond. `line` keeps the line that it does not close, 16 bytes at most.
pub fn take_piece(
    counted: CountedTable<'_>,
    rec: &mut [u8],
    line: &mut [u8],
    progress: Progress,
    piece: &[u8],
    out: &mut [u8],
) -> Place
    requires { (fleet_fault (table_of (as_slices counted.table)) rec.old ≡ 0)
        × (progress.held ≤ 16) × (16 ≤ length line.old) }
    ensures { let q = after_piece (as_slices counted.entry.table) 1024 (under_way progress rec.old line.old) piece.now in
        Buffered q 0 result rec.new line.new out.old out.new
        × (line.new ≡ q.held ++ drop (length q.held) line.old) }
{
    let closed = take_closed(counted, rec, line, progress, piece, out);
    let reached = closed.place;
    let p = reached.progress;
    let end = closed.rest;
    let held = script_steps::line_bytes::append(line, p.held as usize, &piece[end..]);
    Place {
        at: reached.at,
        progress: Progress {
            used: p.used,
            held: held as u32,
            changed: p.changed,
        },
    }
}

// The length of what a piece prints, on a copy of the record.
pub fn count_piece(
    counted: CountedTable<'_>,
    rec: &[u8],
    line: &[u8],
    progress: Progress,
    piece: &[u8],
) -> usize
    requires { (fleet_fault (table_of (as_slices counted.table)) rec.now ≡ 0) × (progress.held ≤ 16) × (progress.held ≤ length line.now) }
    ensures { result ≡ capped (length (after_piece (as_slices counted.entry.table) 1024 (under_way progress rec.now line.now) piece.now).out) }
{
    let mut bytes = [0u8; 16384];
    let mut none = [0u8; 1];
    let length = rec.len();
    script_steps::line_bytes::copy(&mut bytes, 0, rec, length);
    let closed = take_closed(
        counted,
        &mut bytes[..length],
        line,
        progress,
        piece,
        &mut none[..0],
    );
    let place = closed.place;
    place.at
}
