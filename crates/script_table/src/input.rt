// The table's text, read from standard input or any other reader.
ghost use Rattle.std.specs.Prelude.{◌≡◌, ◌≤◌, length};
ghost use Rattle.script_table.specs.Reading.{table_end, ReadsTableText, ReadsTableOf};

use standard_io::Filling;
use std::io::Read;
use table::HEADER_BYTES;
use table::starts::text_end;
use table_text::line_checks::read_header;

// Where the table's text ends, by the header's line.
fn table_end(head: &[u8]) -> usize
    ensures { result ≡ table_end head.now }
{
    match read_header(head, 256, 2048) {
        Ok(header) => text_end(header.probes, header.links),
        Err(_) => head.len(),
    }
}

// Reads the table's bytes and no more: the header's line, then the rest that it tells of.
pub fn read_table_text<R: Read>(input: &mut R, text: &mut [u8]) -> Filling
    requires { 27922 ≤ length text.old }
    ensures own { ReadsTableText result text.new }
    ensures bytes { ReadsTableOf (R.remaining input.old) (R.remaining input.new) result text.new }
{
    match standard_io::fill(input, &mut text[..HEADER_BYTES], 0) {
        Filling::Until(n) => {
            let end = table_end(&text[..n]);
            standard_io::fill(input, &mut text[..end], n)
        }
        Filling::Failed => Filling::Failed,
    }
}
