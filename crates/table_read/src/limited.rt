// A text read within limits: its answer, and its fields stored. The public readers call these, and so do readers with other limits.
ghost use Rattle.std.specs.Prelude.{◌≡◌, true, ℕ, ◌+◌, ◌<◌, ◌≤◌, length};
ghost use Rattle.range.specs.Lists.{stored};
ghost use Rattle.hex_digits.specs.Digits.{number_at};
ghost use Rattle.lines.specs.Digits.{line_fault};
ghost use Rattle.table.specs.Legal.{room_fault};
ghost use Rattle.table.specs.Text.{of_text, need_start, link_start, text_fault};
ghost use Rattle.table_text.specs.Header.{HeaderOf};
ghost use Rattle.table_read.specs.Reading.{lent_of, head_values, read_values, Filled, ReadsTable};

use super::TableHead;
use hex_digits::fields::read_digits;
use refusals::Refusal;
use table::checks::check_room;
use table::starts::{link_start, need_start, text_end};
use table::{LINK_BYTES, NEED_BYTES};
use table_text::Header;
use table_text::text_checks::check_text;

// The answer for a text that has no fault.
fn answer(text: &[u8], head: Header) -> TableHead
    requires { (text_fault 256 2048 true text.now ≡ 0) × HeaderOf text.now head }
    ensures { head_values result ≡ read_values (of_text text.now) }
{
    TableHead {
        number: head.number as u16,
        probes: head.probes as u16,
        links: head.links as u16,
        rest: text_end(head.probes, head.links),
    }
}

// The number that four bytes of a checked line write. `read_digits` has it in both cases, so that its test of them is not needed here.
fn field(text: &[u8], at: usize) -> u16
    requires { (at + 4 ≤ length text.now) × (number_at text.now at 4 < 65536) }
    ensures { result ≡ number_at text.now at 4 }
{
    match read_digits(text, at, 4) {
        Ok(number) | Err(number) => number as u16,
    }
}

// Stores the needs of so many lines that have no fault.
fn store_needs(text: &[u8], probes: usize, needs: &mut [u16])
    requires { (probes ≤ length needs.old) × (probes ≤ 256) × ((v : ℕ) → v < probes → line_fault text.now (need_start v) 4 ≡ 0) }
    ensures { needs.new ≡ stored (of_text text.now).need probes needs.old }
{
    let start = need_start(0);
    for v in 0..probes {
        needs[v] = field(text, start + NEED_BYTES * v);
    }
}

// Stores the ends and costs of so many link lines that have no fault.
fn store_links(
    text: &[u8],
    probes: usize,
    links: usize,
    lows: &mut [u16],
    highs: &mut [u16],
    costs: &mut [u16],
)
    requires { (links ≤ length lows.old) × (links ≤ length highs.old) × (links ≤ length costs.old) × (probes ≤ 256) × (links ≤ 2048)
        × (probes ≡ (of_text text.now).probes) × ((i : ℕ) → i < links → line_fault text.now (link_start probes i) 12 ≡ 0) }
    ensures { let t = of_text text.now in
        (lows.new ≡ stored t.low links lows.old) × (highs.new ≡ stored t.high links highs.old)
        × (costs.new ≡ stored t.cost links costs.old) }
{
    let start = link_start(probes, 0);
    for i in 0..links {
        let at = start + LINK_BYTES * i;
        lows[i] = field(text, at);
        highs[i] = field(text, at + 4);
        costs[i] = field(text, at + 8);
    }
}

// Stores the table of a text that has no fault, each line read once more in one pass.
fn fill_table(
    text: &[u8],
    probes: usize,
    links: usize,
    needs: &mut [u16],
    lows: &mut [u16],
    highs: &mut [u16],
    costs: &mut [u16],
)
    requires { let t = of_text text.now in
        (text_fault 256 2048 true text.now ≡ 0) × (probes ≡ t.probes) × (links ≡ t.links)
        × (room_fault t.probes t.links (length needs.old) (length lows.old) (length highs.old) (length costs.old) ≡ 0) }
    ensures { let before = lent_of needs.old lows.old highs.old costs.old in
        let after = lent_of needs.new lows.new highs.new costs.new in
        Filled 0 (of_text text.now) before after }
{
    store_needs(text, probes, needs);
    store_links(text, probes, links, lows, highs, costs);
}

// Reads a text within the limits pmax and lmax; `more`: whether it may go on behind its closing line.
pub fn read_limited(
    text: &[u8],
    needs: &mut [u16],
    lows: &mut [u16],
    highs: &mut [u16],
    costs: &mut [u16],
    pmax: usize,
    lmax: usize,
    more: bool,
) -> Result<TableHead, Refusal>
    requires { (pmax ≤ 256) × (lmax ≤ 2048) }
    ensures { let before = lent_of needs.old lows.old highs.old costs.old in
        let after = lent_of needs.new lows.new highs.new costs.new in
        ReadsTable pmax lmax more text.now result before after }
{
    let head = check_text(text, pmax, lmax, more)?;
    check_room(
        head.probes,
        head.links,
        needs.len(),
        lows.len(),
        highs.len(),
        costs.len(),
    )?;
    fill_table(text, head.probes, head.links, needs, lows, highs, costs);
    Ok(answer(text, head))
}
