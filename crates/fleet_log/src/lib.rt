// A fleet's lines with its wake log: a lent slice of entries, and the count of its used ones.
#![tactic(auto)]

ghost use Rattle.table.specs.Slices.{as_slices};
ghost use Rattle.fleet_log.specs.Logged.{LogsInFleet};

use table::TableSlices;

// A line of any bytes; the entry goes behind the used ones.
pub fn event_logged(
    table: TableSlices<'_>,
    rec: &mut [u8],
    line: &[u8],
    log: &mut [wake_log::Entry],
    used: usize,
) -> wake_log::Answer
    ensures { LogsInFleet (as_slices table.entry) used line.now result rec.old rec.new log.old log.new }
{
    let answer = fleet::event(table, rec, line, used, log.len());
    wake_log::storing::append_answer(log, used, answer);
    answer
}
