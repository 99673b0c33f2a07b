// A table in slices, written as text.
#![tactic(auto)]

ghost use Rattle.table.specs.Slices.{as_slices};
ghost use Rattle.table_write.specs.Writing.{WritesTable};

use refusals::Refusal;
use table::TableSlices;

pub mod limited;
pub mod line;
pub mod text;

// Writes a table that is given in slices by its number, probe count and link count. Answers the text's length.
pub fn write_table(table: TableSlices<'_>, out: &mut [u8]) -> Result<usize, Refusal>
    ensures { WritesTable 256 2048 (as_slices table.entry) result out.old out.new }
{
    limited::write_limited(256, 2048, table, out)
}
