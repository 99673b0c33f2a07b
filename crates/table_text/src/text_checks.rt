// The checks of a table's text as a whole.
ghost use Rattle.std.specs.Prelude.{◌≡◌, ◌≤◌, IfOk};
ghost use Rattle.refusals.specs.Refusals.{fault_of};
ghost use Rattle.lines.specs.Digits.{line_fault};
ghost use Rattle.table.specs.Text.{of_text, body_fault, text_fault};
ghost use Rattle.table_text.specs.Header.{HeaderOf};

use super::Header;
use super::line_checks::{check_closing, check_link_lines, check_need_lines, read_header};
use refusals::Refusal;
use table::starts::link_start;

// What follows the header, from behind its line: 1, 2, 4 and 5 line by line, then 6.
fn check_body(text: &[u8], probes: usize, links: usize, more: bool) -> Result<(), Refusal>
    requires { (probes ≡ (of_text text.now).probes) × (links ≡ (of_text text.now).links) × (probes ≤ 256) × (links ≤ 2048) × (line_fault text.now 0 12 ≡ 0) }
    ensures { fault_of result ≡ body_fault more text.now }
{
    check_need_lines(text, reader::first_line(text).next, probes)?;
    check_link_lines(text, probes, links)?;
    check_closing(text, link_start(probes, links), more)
}

// 1 to 6, or the header's numbers.
pub fn check_text(text: &[u8], pmax: usize, lmax: usize, more: bool) -> Result<Header, Refusal>
    requires { (pmax ≤ 256) × (lmax ≤ 2048) }
    ensures { (fault_of result ≡ text_fault pmax lmax more text.now) × IfOk result (HeaderOf text.now) }
{
    let head = read_header(text, pmax, lmax)?;
    check_body(text, head.probes, head.links, more)?;
    Ok(head)
}
