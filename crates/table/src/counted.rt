// A table that its checks let pass, with each probe's links counted: what a fleet's steps start from.
ghost use Rattle.std.specs.Prelude.{◌≡◌, ◌≤◌, length};
ghost use Rattle.table.specs.Slices.{as_slices, table_of, slices_fault};
ghost use Rattle.table.specs.Table.{Degrees};

use super::TableSlices;

#[derive(Clone, Copy)]
pub struct CountedTable<'a> {
    pub table: TableSlices<'a>,
    pub degrees: &'a [u16],
    ghost legal: { slices_fault (as_slices table) ≡ 0 },
    ghost in_degrees: { table.probes ≤ length degrees.now },
    ghost are_counted: { Degrees (table_of (as_slices table)) degrees.now },
}
