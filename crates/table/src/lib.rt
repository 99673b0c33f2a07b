// A table in slices: whether it is legal.
#![tactic(auto)]

ghost use Rattle.table.specs.Slices.{as_slices};
ghost use Rattle.table.specs.Checking.{ChecksTable};

use refusals::Refusal;

pub mod checks;
pub mod counted;
pub mod degrees;
pub mod numbers;
pub mod starts;

// The closing line: the text's reader compares with it, and the writers write it.
pub const CLOSING: [u8; 5] = *b"ffff\n";

// The bytes of each line of a table's text, with its line feed.
pub const HEADER_BYTES: usize = 13;

pub const NEED_BYTES: usize = 5;

pub const LINK_BYTES: usize = 13;

pub const CLOSING_BYTES: usize = 5;

// A table in slices, with its number, probe count and link count.
#[derive(Clone, Copy)]
pub struct TableSlices<'a> {
    pub number: u16,
    pub probes: u16,
    pub links: u16,
    pub needs: &'a [u16],
    pub lows: &'a [u16],
    pub highs: &'a [u16],
    pub costs: &'a [u16],
}

// Checks a table that is given in slices by its number, probe count and link count.
pub fn check_table(table: TableSlices<'_>) -> Result<(), Refusal>
    ensures { ChecksTable 256 2048 (as_slices table.entry) result }
{
    checks::check_slices(256, 2048, table)
}
