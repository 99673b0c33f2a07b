// Where the lines of a table's text start.
ghost use Rattle.std.specs.Prelude.{◌≡◌, [], ◌≤◌};
ghost use Rattle.table.specs.Table.{of_slices};
ghost use Rattle.table.specs.Text.{need_start, link_start, text_end};

use super::{CLOSING_BYTES, HEADER_BYTES, LINK_BYTES, NEED_BYTES};

// The need line of probe v.
pub fn need_start(v: usize) -> usize
    requires { v ≤ 65535 }
    ensures { result ≡ need_start v }
{
    HEADER_BYTES + NEED_BYTES * v
}

// The line of link i.
pub fn link_start(probes: usize, i: usize) -> usize
    requires { (probes ≤ 65535) × (i ≤ 65535) }
    ensures { result ≡ link_start probes i }
{
    need_start(probes) + LINK_BYTES * i
}

// Behind the closing line.
pub fn text_end(probes: usize, links: usize) -> usize
    requires { (probes ≤ 65535) × (links ≤ 65535) }
    ensures { result ≡ text_end (of_slices 0 probes links [] [] [] []) }
{
    link_start(probes, links) + CLOSING_BYTES
}
