// Where the lines of a plan start.
ghost use Rattle.std.specs.Prelude.{◌≡◌};
ghost use Rattle.plan_lines.specs.Lines.{kept_start, short_start};

use table::LINK_BYTES;

// The bytes of a plan's first line, with its line feed.
const FIRST_LINE_BYTES: usize = 17;

// The bytes of a short probe's line, with its line feed.
pub const SHORT_BYTES: usize = 9;

// The line of the kept link number k.
pub fn kept_start(k: u32) -> usize
    ensures { result ≡ kept_start k }
{
    FIRST_LINE_BYTES + LINK_BYTES * (k as usize)
}

// The line of the short probe number k, behind those of the kept links.
pub fn short_start(kept: u32, k: u32) -> usize
    ensures { result ≡ short_start kept k }
{
    kept_start(kept) + SHORT_BYTES * (k as usize)
}
