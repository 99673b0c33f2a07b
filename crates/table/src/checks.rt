// The checks of a table. The table's text, the plan, the ends and the fleet call these.
ghost use Rattle.std.specs.Prelude.{◌≡◌, true, ◌-◌, ◌<◌, ◌≤◌, length};
ghost use Rattle.range.specs.First.{first};
ghost use Rattle.refusals.specs.Refusals.{fault_of};
ghost use Rattle.table.specs.Table.{item};
ghost use Rattle.table.specs.Legal.{size_fault, ends_fault, order_fault, link_fault, room_fault};
ghost use Rattle.table.specs.Slices.{slice_fault, slices_of, as_slices};

use super::TableSlices;
use super::numbers::wide;
use refusals::Refusal;

// 3
pub fn check_size(pmax: usize, lmax: usize, probes: usize, links: usize) -> Result<(), Refusal>
    ensures { fault_of result ≡ size_fault pmax lmax probes links }
{
    if probes == 0 || pmax < probes || lmax < links {
        return Err(Refusal::Size);
    }
    Ok(())
}

// 4
pub fn check_ends(probes: usize, low: usize, high: usize) -> Result<(), Refusal>
    ensures { fault_of result ≡ ends_fault probes low high }
{
    if low < high && high < probes {
        Ok(())
    } else {
        Err(Refusal::Ends)
    }
}

// 5
pub fn check_order(low0: usize, high0: usize, low: usize, high: usize) -> Result<(), Refusal>
    ensures { fault_of result ≡ order_fault low0 high0 low high }
{
    if low0 < low || (low0 == low && high0 < high) {
        Ok(())
    } else {
        Err(Refusal::Order)
    }
}

// 4, then 5, of one link.
fn check_link(probes: usize, lows: &[u16], highs: &[u16], i: usize) -> Result<(), Refusal>
    requires { (i < length lows.now) × (i < length highs.now) }
    ensures { fault_of result ≡ link_fault probes (item lows.now) (item highs.now) i }
{
    let low = wide(lows[i]);
    let high = wide(highs[i]);
    check_ends(probes, low, high)?;
    if i == 0 {
        return Ok(());
    }
    check_order(wide(lows[i - 1]), wide(highs[i - 1]), low, high)
}

// Whether every link passes 4 and 5. No number is read twice and nothing branches, so that several links are compared at a time. Before the first link stand 0 and 0, which come before any link that passes 4.
fn are_rising(probes: u16, links: usize, lows: &[u16], highs: &[u16]) -> bool
    requires { (links ≤ length lows.now) × (links ≤ length highs.now) }
    ensures { result ≡ true → first (link_fault probes (item lows.now) (item highs.now)) links ≡ 0 }
{
    let mut low0 = 0u16;
    let mut high0 = 0u16;
    let mut bad = false;
    for i in 0..links {
        let low = lows[i];
        let high = highs[i];
        let ends = (high <= low) | (probes <= high);
        let order = (low < low0) | ((low == low0) & (high <= high0));
        bad = bad | (ends | order);
        low0 = low;
        high0 = high;
    }
    !bad
}

// 4 and 5, link by link.
fn check_links(probes: usize, links: usize, lows: &[u16], highs: &[u16]) -> Result<(), Refusal>
    requires { (links ≤ length lows.now) × (links ≤ length highs.now) }
    ensures { fault_of result ≡ first (link_fault probes (item lows.now) (item highs.now)) links }
{
    if probes < 65536 && are_rising(probes as u16, links, lows, highs) {
        return Ok(());
    }
    for i in 0..links {
        check_link(probes, lows, highs, i)?;
    }
    Ok(())
}

// 8, by the lengths of the table's slices.
pub fn check_room(
    probes: usize,
    links: usize,
    needs: usize,
    lows: usize,
    highs: usize,
    costs: usize,
) -> Result<(), Refusal>
    ensures { fault_of result ≡ room_fault probes links needs lows highs costs }
{
    if needs < probes || lows != highs || highs != costs || lows < links {
        return Err(Refusal::Slice);
    }
    Ok(())
}

// 8, 3, then 4 and 5 link by link, within the limits pmax and lmax, of counts of any size.
pub fn check_parts(
    pmax: usize,
    lmax: usize,
    probes: usize,
    links: usize,
    needs: &[u16],
    lows: &[u16],
    highs: &[u16],
    costs: &[u16],
) -> Result<(), Refusal>
    ensures { let x = slices_of 0 probes links needs.now lows.now highs.now costs.now in
        fault_of result ≡ slice_fault pmax lmax x }
{
    check_room(
        probes,
        links,
        needs.len(),
        lows.len(),
        highs.len(),
        costs.len(),
    )?;
    check_size(pmax, lmax, probes, links)?;
    check_links(probes, links, lows, highs)
}

// The same of a table.
pub fn check_slices(pmax: usize, lmax: usize, table: TableSlices<'_>) -> Result<(), Refusal>
    ensures { fault_of result ≡ slice_fault pmax lmax (as_slices table.entry) }
{
    check_parts(
        pmax,
        lmax,
        table.probes as usize,
        table.links as usize,
        table.needs,
        table.lows,
        table.highs,
        table.costs,
    )
}
