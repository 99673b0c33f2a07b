// 8 for the lent rows of a turned record.
ghost use Rattle.std.specs.Prelude.{◌≡◌, ◌≤◌};
ghost use Rattle.range.specs.First.{or_else};
ghost use Rattle.refusals.specs.Refusals.{fault_of};
ghost use Rattle.bit_maps.specs.BitMap.{words_for};
ghost use Rattle.table.specs.Legal.{lent_fault};

use refusals::Refusal;

// By the lengths of the rows.
pub fn check_rows(
    links: usize,
    standing: usize,
    refused_out: usize,
    held: usize,
    refused_in: usize,
) -> Result<(), Refusal>
    requires { links ≤ 65535 }
    ensures { let words = words_for links in
        fault_of result ≡ or_else (lent_fault standing words) (or_else (lent_fault refused_out words) (or_else (lent_fault held words) (lent_fault refused_in words))) }
{
    let words = (links + 63) / 64;
    if standing < words {
        return Err(Refusal::Slice);
    }
    if refused_out < words {
        return Err(Refusal::Slice);
    }
    if held < words {
        return Err(Refusal::Slice);
    }
    if refused_in < words {
        return Err(Refusal::Slice);
    }
    Ok(())
}
