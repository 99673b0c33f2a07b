// The tables of the well-head display: at most 16 probes and 40 links, by the same checks, reading and writing as the full tables.
#![tactic(auto)]

ghost use Rattle.std.specs.Prelude.{false};
ghost use Rattle.table.specs.Slices.{as_slices};
ghost use Rattle.table.specs.Checking.{ChecksTable};
ghost use Rattle.table_read.specs.Reading.{lent_of, ReadsTable};
ghost use Rattle.table_write.specs.Writing.{WritesTable};

use refusals::Refusal;
use table::TableSlices;
use table::checks::check_slices;
use table_read::TableHead;
use table_read::limited::read_limited;
use table_write::limited::write_limited;

// The most probes and the most links.
pub const PMAX: usize = 16;

pub const LMAX: usize = 40;

// `table::check_table` at the display's limits.
pub fn check_table(table: TableSlices<'_>) -> Result<(), Refusal>
    ensures { ChecksTable 16 40 (as_slices table.entry) result }
{
    check_slices(PMAX, LMAX, table)
}

// `table_read::read_table` at the display's limits.
pub fn read_table(
    text: &[u8],
    needs: &mut [u16],
    lows: &mut [u16],
    highs: &mut [u16],
    costs: &mut [u16],
) -> Result<TableHead, Refusal>
    ensures { let before = lent_of needs.old lows.old highs.old costs.old in
        let after = lent_of needs.new lows.new highs.new costs.new in
        ReadsTable 16 40 false text.now result before after }
{
    read_limited(text, needs, lows, highs, costs, PMAX, LMAX, false)
}

// `table_write::write_table` at the display's limits.
pub fn write_table(table: TableSlices<'_>, out: &mut [u8]) -> Result<usize, Refusal>
    ensures { WritesTable 16 40 (as_slices table.entry) result out.old out.new }
{
    write_limited(PMAX, LMAX, table, out)
}
