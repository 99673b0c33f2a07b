// A fleet of ends: its record, driven by lines. Links go by their place in the table. Beside the calls, laws on any record: it stays usable, and a line makes as many changes as its entry says.
#![tactic(auto)]

ghost use Rattle.std.specs.Prelude.{◌≡◌};
ghost use Rattle.table.specs.Slices.{as_slices};
ghost use Rattle.fleet.specs.Answers.{Handled, finishing_reply, whether_finished, changes_of};

use table::TableSlices;
use table::counted::CountedTable;

pub mod line_checks;
pub mod steps;

// Whether the fleet is finished, or the number of the refusal.
#[derive(Clone, Copy)]
pub enum Finishing {
    Says(bool),
    Refused(u8),
}

// A line of any bytes: an opening, a frame heard, or a restart. `used` of the log's `room` entries are used.
pub fn event(
    table: TableSlices<'_>,
    rec: &mut [u8],
    line: &[u8],
    used: usize,
    room: usize,
) -> wake_log::Answer
    ensures { Handled (as_slices table.entry) used room line.now result rec.old rec.new }
{
    let mut degrees = [0u16; 256];
    if let Err(refusal) = fleet_state::checks::check_state(table, rec, &mut degrees) {
        return wake_log::Answer::Refused(refusal.number());
    }
    let counted = CountedTable {
        table,
        degrees: &degrees,
    };
    steps::handle_line(counted, rec, line, used, room)
}

// Whether the fleet is finished.
pub fn finished(table: TableSlices<'_>, rec: &[u8]) -> Finishing
    ensures { finishing_reply result ≡ whether_finished (as_slices table.entry) rec.now }
{
    let mut degrees = [0u16; 256];
    if let Err(refusal) = fleet_state::checks::check_state(table, rec, &mut degrees) {
        return Finishing::Refused(refusal.number());
    }
    Finishing::Says(fleet_finishing::finishing::is_finished(
        table.probes as usize,
        table.links as usize,
        table.needs,
        &degrees,
        table.lows,
        table.highs,
        rec,
    ))
}

// How many changes an event made, by its entry; marks and wipes count nowhere.
pub fn changes_of(what: wake_log::What) -> u8
    ensures { result ≡ changes_of what }
{
    match what {
        wake_log::What::Opened(_) => 1,
        wake_log::What::Enough => 0,
        wake_log::What::Taken(_) => 1,
        wake_log::What::TakenDisplacing {
            link: _,
            displaced: _,
        } => 2,
        wake_log::What::Refused(_) => 1,
        wake_log::What::RefusalLearnt(_) => 1,
        wake_log::What::NoChange(_) => 0,
        wake_log::What::AllTried => 0,
        wake_log::What::Restarted => 0,
    }
}

// A refusal of a line's ends, 0 for none, and for a frame the link between them.
#[derive(Clone, Copy)]
pub struct LineEnds {
    pub fault: u8,
    pub link: usize,
}
