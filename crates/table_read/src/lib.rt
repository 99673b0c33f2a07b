// Reading a table's text into lent slices.
#![tactic(auto)]

ghost use Rattle.std.specs.Prelude.{true, false};
ghost use Rattle.table_read.specs.Reading.{lent_of, ReadsTable};

use refusals::Refusal;

pub mod limited;

// What reading a table answers: its number, probe count and link count, and where the rest of the text starts.
#[derive(Clone, Copy)]
pub struct TableHead {
    pub number: u16,
    pub probes: u16,
    pub links: u16,
    pub rest: usize,
}

// Reads a text that ends with its closing line.
pub fn read_table(
    text: &[u8],
    needs: &mut [u16],
    lows: &mut [u16],
    highs: &mut [u16],
    costs: &mut [u16],
) -> Result<TableHead, Refusal>
    ensures { let before = lent_of needs.old lows.old highs.old costs.old in
        let after = lent_of needs.new lows.new highs.new costs.new in
        ReadsTable 256 2048 false text.now result before after }
{
    limited::read_limited(text, needs, lows, highs, costs, 256, 2048, false)
}

// Reads a text that may go on behind its closing line.
pub fn read_table_prefix(
    text: &[u8],
    needs: &mut [u16],
    lows: &mut [u16],
    highs: &mut [u16],
    costs: &mut [u16],
) -> Result<TableHead, Refusal>
    ensures { let before = lent_of needs.old lows.old highs.old costs.old in
        let after = lent_of needs.new lows.new highs.new costs.new in
        ReadsTable 256 2048 true text.now result before after }
{
    limited::read_limited(text, needs, lows, highs, costs, 256, 2048, true)
}
