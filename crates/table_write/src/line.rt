// The lines of a table's text, written one by one. The writers of a table, of a frame and of a plan call these.
ghost use Rattle.std.specs.Prelude.{◌≡◌, ◌+◌, ◌≤◌, length};
ghost use Rattle.std.proofs.lemmas.List.Edits.{sets};
ghost use Rattle.table.specs.Text.{closing_line, need_line, triple_line};

use table::{CLOSING, CLOSING_BYTES};

// A header or link line.
pub fn put_triple(out: &mut [u8], at: usize, a: u16, b: u16, c: u16)
    requires { at + 13 ≤ length out.old }
    ensures { out.new ≡ sets out.old at (triple_line a b c) }
{
    hex_digits::fields::put_number(out, at, 4, a as u32);
    hex_digits::fields::put_number(out, at + 4, 4, b as u32);
    hex_digits::fields::put_number(out, at + 8, 4, c as u32);
    out[at + 12] = b'\n';
}

pub fn put_need(out: &mut [u8], at: usize, need: u16)
    requires { at + 5 ≤ length out.old }
    ensures { out.new ≡ sets out.old at (need_line need) }
{
    hex_digits::fields::put_number(out, at, 4, need as u32);
    out[at + 4] = b'\n';
}

pub fn put_closing(out: &mut [u8], at: usize)
    requires { at + 5 ≤ length out.old }
    ensures { out.new ≡ sets out.old at closing_line }
{
    out[at..at + CLOSING_BYTES].copy_from_slice(&CLOSING);
}
