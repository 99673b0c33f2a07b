// The library of tables for C and Rust: check, read, write; the same for the well-head display.
#![tactic(auto)]

ghost use Rattle.std.specs.Prelude.{◌≡◌, true, false, ◌+◌, ◌*◌, ℕ, ◌<◌, length};
ghost use Rattle.table.specs.Slices.{slice_fault, slices_fault, slices_of};
ghost use Rattle.table.specs.Checking.{checking_reply};
ghost use Rattle.table_read.specs.Reading.{lent_of, reading_reply};
ghost use Rattle.table_write.specs.Writing.{writing_reply};
ghost use Rattle.packed_answers.specs.Packed.{answer_base, packed_value};
ghost use Rattle.table_exports.specs.Packed.{ReadsPacked, WritesPacked, packed_checking, packed_reading};

use packed_answers::ANSWER_BASE;
use refusals::Refusal;
use table::TableSlices;
use table_read::TableHead;

fn packed_checking(r: Result<(), Refusal>) -> u8
    ensures { result ≡ packed_checking (checking_reply r) }
{
    match r {
        Ok(()) => 0,
        Err(refusal) => refusal.number(),
    }
}

fn packed_reading(r: Result<TableHead, Refusal>) -> u64
    ensures { result ≡ packed_reading (reading_reply r) }
{
    match r {
        Ok(head) => {
            ANSWER_BASE
                + (head.number as u64) * 4294967296
                + (head.probes as u64) * 65536
                + (head.links as u64)
        }
        Err(refusal) => refusal.number() as u64,
    }
}

fn packed_writing(r: Result<usize, Refusal>) -> u64
    requires { (length : ℕ) → r ≡ Ok length → length < answer_base }
    ensures { result ≡ packed_value (writing_reply r) }
{
    match r {
        Ok(length) => length as u64 + ANSWER_BASE,
        Err(refusal) => refusal.number() as u64,
    }
}

// `table::check_table`: 0 where the table is fine.
#[unsafe(no_mangle)]
pub extern "C" fn planner_check_table(
    number: u16,
    probes: u16,
    links: u16,
    needs: &[u16],
    lows: &[u16],
    highs: &[u16],
    costs: &[u16],
) -> u8
    ensures { let x = slices_of number probes links needs.now lows.now highs.now costs.now in
        result ≡ slices_fault x }
{
    let table = TableSlices {
        number,
        probes,
        links,
        needs,
        lows,
        highs,
        costs,
    };
    packed_checking(table::check_table(table))
}

// `table_read::read_table`, its answer packed.
#[unsafe(no_mangle)]
pub extern "C" fn planner_read_table(
    text: &[u8],
    needs: &mut [u16],
    lows: &mut [u16],
    highs: &mut [u16],
    costs: &mut [u16],
) -> u64
    ensures { let before = lent_of needs.old lows.old highs.old costs.old in
        let after = lent_of needs.new lows.new highs.new costs.new in
        ReadsPacked 256 2048 false text.now result before after }
{
    packed_reading(table_read::read_table(text, needs, lows, highs, costs))
}

// `table_read::read_table_prefix`, its answer packed.
#[unsafe(no_mangle)]
pub extern "C" fn planner_read_table_prefix(
    text: &[u8],
    needs: &mut [u16],
    lows: &mut [u16],
    highs: &mut [u16],
    costs: &mut [u16],
) -> u64
    ensures { let before = lent_of needs.old lows.old highs.old costs.old in
        let after = lent_of needs.new lows.new highs.new costs.new in
        ReadsPacked 256 2048 true text.now result before after }
{
    packed_reading(table_read::read_table_prefix(text, needs, lows, highs, costs))
}

// `table_write::write_table`, its answer packed.
#[unsafe(no_mangle)]
pub extern "C" fn planner_write_table(
    number: u16,
    probes: u16,
    links: u16,
    needs: &[u16],
    lows: &[u16],
    highs: &[u16],
    costs: &[u16],
    out: &mut [u8],
) -> u64
    ensures { let x = slices_of number probes links needs.now lows.now highs.now costs.now in
        WritesPacked 256 2048 x result out.old out.new }
{
    let table = TableSlices {
        number,
        probes,
        links,
        needs,
        lows,
        highs,
        costs,
    };
    packed_writing(table_write::write_table(table, out))
}

// `table_display::check_table`: 0 where the table is fine.
#[unsafe(no_mangle)]
pub extern "C" fn planner_display_check_table(
    number: u16,
    probes: u16,
    links: u16,
    needs: &[u16],
    lows: &[u16],
    highs: &[u16],
    costs: &[u16],
) -> u8
    ensures { let x = slices_of number probes links needs.now lows.now highs.now costs.now in
        result ≡ slice_fault 16 40 x }
{
    let table = TableSlices {
        number,
        probes,
        links,
        needs,
        lows,
        highs,
        costs,
    };
    packed_checking(table_display::check_table(table))
}

// `table_display::read_table`, its answer packed.
#[unsafe(no_mangle)]
pub extern "C" fn planner_display_read_table(
    text: &[u8],
    needs: &mut [u16],
    lows: &mut [u16],
    highs: &mut [u16],
    costs: &mut [u16],
) -> u64
    ensures { let before = lent_of needs.old lows.old highs.old costs.old in
        let after = lent_of needs.new lows.new highs.new costs.new in
        ReadsPacked 16 40 false text.now result before after }
{
    packed_reading(table_display::read_table(text, needs, lows, highs, costs))
}

// `table_display::write_table`, its answer packed.
#[unsafe(no_mangle)]
pub extern "C" fn planner_display_write_table(
    number: u16,
    probes: u16,
    links: u16,
    needs: &[u16],
    lows: &[u16],
    highs: &[u16],
    costs: &[u16],
    out: &mut [u8],
) -> u64
    ensures { let x = slices_of number probes links needs.now lows.now highs.now costs.now in
        WritesPacked 16 40 x result out.old out.new }
{
    let table = TableSlices {
        number,
        probes,
        links,
        needs,
        lows,
        highs,
        costs,
    };
    packed_writing(table_display::write_table(table, out))
}
