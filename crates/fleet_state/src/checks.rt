// 20, 21 and 22 of a fleet's record.
ghost use Rattle.std.specs.Prelude.{◌≡◌, [], ℕ, ◌+◌, ◌*◌, ◌-◌, ◌<◌, ◌≤◌, length, get_or, IfOk};
ghost use Rattle.range.specs.First.{or_else, first};
ghost use Rattle.refusals.specs.Refusals.{fault_of};
ghost use Rattle.table.specs.Slices.{table_of, slices_fault, as_slices};
ghost use Rattle.probe_record.specs.Record.{spare_fault};
ghost use Rattle.table.specs.Table.{item, Degrees};
ghost use Rattle.fleet_theory.specs.Fleet.{own, wrong_byte, link_bytes_fault, fleet_fault};
ghost use Rattle.fleet_state.specs.Faults.{over_fault, wrong_link};
ghost use Rattle.fleet_state.specs.Within.{LegalWithoutCosts};

use refusals::Refusal;
use table::TableSlices;
use table::checks::check_slices;

// 21, of a byte and its mark: a byte over 2, a mark over 1, or none while the byte permits its frame.
fn is_wrong(byte: u8, mark: u8, permit: u8) -> bool
    ensures { result ≡ wrong_byte byte mark permit }
{
    let over = (2 < byte) | (1 < mark);
    let unmarked = (byte == permit) & (mark == 0);
    over | unmarked
}

// Whether one of a link's four bytes or marks is wrong. An outbound byte permits its frame while it is 1, an inbound byte while it is 2.
fn is_wrong_link(rec: &[u8], i: usize) -> bool
    requires { (i < 65536) × (8 * i + 7 < length rec.now) }
    ensures { result ≡ wrong_link rec.now i }
{
    let at = 8 * i;
    let first = is_wrong(rec[at], rec[at + 4], 1);
    let second = is_wrong(rec[at + 1], rec[at + 5], 2);
    let third = is_wrong(rec[at + 2], rec[at + 6], 1);
    let fourth = is_wrong(rec[at + 3], rec[at + 7], 2);
    (first | second) | (third | fourth)
}

// 21.
#[tactic(auto, using(range::proofs::Faults::first_none, range::proofs::Faults::first_some, crate::proofs::CheckLaws::wrong_link_lem), unfolding(range::specs::First::first))]
fn check_bytes(rec: &[u8], links: usize) -> Result<(), Refusal>
    requires { (links ≤ 65535) × (8 * links ≤ length rec.now) }
    ensures { fault_of result ≡ first (link_bytes_fault rec.now) links }
{
    for i in 0..links {
        if is_wrong_link(rec, i) {
            return Err(Refusal::RecordByte);
        }
    }
    Ok(())
}

// 22, by the probes' counts.
#[tactic(auto, using(range::proofs::Faults::first_none, range::proofs::Faults::first_some), unfolding(range::specs::First::first))]
fn check_counts(
    probes: usize,
    needs: &[u16],
    degrees: &[u16],
    standing: &[u16],
    held: &[u16],
) -> Result<(), Refusal>
    requires { (probes ≤ length degrees.now) × (probes ≤ length standing.now) × (probes ≤ length held.now) }
    ensures { fault_of result ≡ first (λ v. over_fault (item degrees.now v - item needs.now v) (item standing.now v) (item held.now v)) probes }
{
    for v in 0..probes {
        let spare = table_links::spares::spare_at(degrees, needs, v);
        if spare < standing[v] as usize {
            return Err(Refusal::OverSpare);
        }
        if spare < held[v] as usize {
            return Err(Refusal::OverSpare);
        }
    }
    Ok(())
}

// 22; counts each probe's links into zeros.
fn check_spares(table: TableSlices<'_>, rec: &[u8], degrees: &mut [u16]) -> Result<(), Refusal>
    requires { LegalWithoutCosts table.probes table.links table.needs.now table.lows.now table.highs.now × (8 * table.links ≤ length rec.now)
        × (length degrees.old ≡ 256) × ((v : ℕ) → get_or degrees.old v 0 ≡ 0) }
    ensures { let t = table_of (as_slices table.entry) in
        (fault_of result ≡ first (λ p. spare_fault t p (own t p rec.now)) table.entry.probes) × Degrees t degrees.new }
{
    let probes = table.probes as usize;
    let links = table.links as usize;
    let mut standing = [0u16; 256];
    let mut held = [0u16; 256];
    table::degrees::count_degrees(degrees, links, table.lows, table.highs);
    super::counts::count_bytes(&mut standing, rec, links, table.lows, table.highs, 0, 2, 1);
    super::counts::count_bytes(&mut held, rec, links, table.lows, table.highs, 3, 1, 1);
    check_counts(probes, table.needs, degrees, &standing, &held)
}

// 20, 21, 22; where there is none, each probe's links are counted.
fn check_fleet(table: TableSlices<'_>, rec: &[u8], degrees: &mut [u16]) -> Result<(), Refusal>
    requires { LegalWithoutCosts table.probes table.links table.needs.now table.lows.now table.highs.now × (length degrees.old ≡ 256) × ((v : ℕ) → get_or degrees.old v 0 ≡ 0) }
    ensures { let t = table_of (as_slices table.entry) in
        (fault_of result ≡ fleet_fault t rec.now) × IfOk result (λ u. Degrees t degrees.new) }
{
    let links = table.links as usize;
    if rec.len() != 8 * links {
        return Err(Refusal::RecordLength);
    }
    check_bytes(rec, links)?;
    check_spares(table, rec, degrees)?;
    Ok(())
}

// The table's own, then 20, 21, 22; where there is none, each probe's links are counted into zeros.
pub fn check_state(table: TableSlices<'_>, rec: &[u8], degrees: &mut [u16]) -> Result<(), Refusal>
    requires { (length degrees.old ≡ 256) × ((v : ℕ) → get_or degrees.old v 0 ≡ 0) }
    ensures { let x = as_slices table.entry in
        (fault_of result ≡ or_else (slices_fault x) (fleet_fault (table_of x) rec.now)) × IfOk result (λ u. Degrees (table_of x) degrees.new) }
{
    check_slices(256, 2048, table)?;
    check_fleet(table, rec, degrees)
}
