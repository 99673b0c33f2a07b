// 1 to 6 of a table's text, line by line. Each line of digits is read where it stands.
ghost use Rattle.std.specs.Prelude.{◌≡◌, ◌-◌, ◌≤◌, ◌<◌, length, drop, IfOk};
ghost use Rattle.range.specs.First.{first};
ghost use Rattle.refusals.specs.Refusals.{fault_of};
ghost use Rattle.table.specs.Text.{of_text, begins, need_start, link_start, closing_fault, need_line_fault, link_line_fault, head_fault};
ghost use Rattle.table_text.specs.Header.{HeaderOf, LinkOf};

use super::{Header, Link};
use reader::numbers::{need_line, triple_line};
use refusals::Refusal;
use table::checks::{check_ends, check_order, check_size};
use table::starts::link_start;
use table::{LINK_BYTES, NEED_BYTES};

// 1 and 2 of the header, then 3.
pub fn read_header(text: &[u8], pmax: usize, lmax: usize) -> Result<Header, Refusal>
    ensures { (fault_of result ≡ head_fault pmax lmax text.now) × IfOk result (HeaderOf text.now) }
{
    let line = triple_line(text, 0)?;
    check_size(pmax, lmax, line.second, line.third)?;
    Ok(Header {
        number: line.first,
        probes: line.second,
        links: line.third,
    })
}

// 1 and 2 of the need lines, from where the first one starts.
pub fn check_need_lines(text: &[u8], start: usize, probes: usize) -> Result<(), Refusal>
    requires { (start ≡ need_start 0) × (probes ≤ 256) }
    ensures { fault_of result ≡ first (need_line_fault text.now) probes }
{
    for v in 0..probes {
        need_line(text, start + NEED_BYTES * v)?;
    }
    Ok(())
}

// 1, 2, 4 and 5 of the line of link i, which starts at an offset; `low0` and `high0` are the ends of the link before it.
fn read_link(
    text: &[u8],
    probes: usize,
    at: usize,
    i: usize,
    low0: usize,
    high0: usize,
) -> Result<Link, Refusal>
    requires { let t = of_text text.now in
        (probes ≡ t.probes) × (at ≡ link_start probes i) × (0 < i → (low0 ≡ t.low (i - 1)) × (high0 ≡ t.high (i - 1))) }
    ensures { (fault_of result ≡ link_line_fault text.now i) × IfOk result (LinkOf text.now i) }
{
    let line = triple_line(text, at)?;
    let low = line.first;
    let high = line.second;
    check_ends(probes, low, high)?;
    if i != 0 {
        check_order(low0, high0, low, high)?;
    }
    Ok(Link { low, high })
}

// 1, 2, 4 and 5 of the link lines.
pub fn check_link_lines(text: &[u8], probes: usize, links: usize) -> Result<(), Refusal>
    requires { (probes ≡ (of_text text.now).probes) × (probes ≤ 256) × (links ≤ 2048) }
    ensures { fault_of result ≡ first (link_line_fault text.now) links }
{
    let start = link_start(probes, 0);
    let mut low = 0;
    let mut high = 0;
    for i in 0..links {
        let link = read_link(text, probes, start + LINK_BYTES * i, i, low, high)?;
        low = link.low;
        high = link.high;
    }
    Ok(())
}

// Whether some bytes stand in a text at an offset.
fn stands_at(text: &[u8], at: usize, what: &[u8]) -> bool
    requires { at ≤ length text.now }
    ensures { result ≡ begins (drop at text.now) what.now }
{
    text[at..].starts_with(what)
}

// 6, where the closing line is to stand at an offset.
pub fn check_closing(text: &[u8], at: usize, more: bool) -> Result<(), Refusal>
    requires { at ≤ length text.now }
    ensures { fault_of result ≡ closing_fault more text.now at }
{
    if !stands_at(text, at, &table::CLOSING) {
        return Err(Refusal::Closing);
    }
    if more {
        return Ok(());
    }
    let closing = reader::line_at(text, at);
    if !reader::ends_at(text, closing.next) {
        return Err(Refusal::Closing);
    }
    Ok(())
}
