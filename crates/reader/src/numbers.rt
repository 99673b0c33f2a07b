// Lines of digits, read where they stand: a line's fault or its numbers, in one pass over it.
ghost use Rattle.std.specs.Prelude.{◌≡◌, false, ◌&&◌, [], ◌∷◌, ◌+◌, ◌≤◌, eqb, ltb, length, get_or, IfOk};
ghost use Rattle.hex_digits.specs.Digits.{number_at, are_digits};
ghost use Rattle.refusals.specs.Refusals.{fault_of, number_of};
ghost use Rattle.lines.specs.Digits.{line_fault};
ghost use Rattle.lines.specs.Fields.{need_fields, triple_fields, ReadsLine};
ghost use Rattle.reader.specs.Triple.{numbers_of};

use refusals::Refusal;

// The numbers of a line of three, four digits each.
#[derive(Clone, Copy)]
pub struct Triple {
    pub first: usize,
    pub second: usize,
    pub third: usize,
}

// Whether a line feed stands so many bytes behind an offset.
fn feed_behind(text: &[u8], at: usize, width: usize) -> bool
    ensures { result ≡ (ltb (at + width) (length text.now) && eqb (get_or text.now (at + width) 0) 10) }
{
    if text.len() <= width {
        return false;
    }
    if text.len() - width <= at {
        return false;
    }
    text[at + width] == b'\n'
}

// 1 or 2 of a line of which a byte is no digit: it may be the line feed of a shorter line.
fn bad_digit(text: &[u8], at: usize, width: usize) -> Refusal
    requires { are_digits text.now at width ≡ false }
    ensures { number_of result ≡ line_fault text.now at width }
{
    match super::line_at(text, at).line {
        Some(line) if line.len == width => Refusal::Digit,
        _ => Refusal::Line,
    }
}

// The line of so many digits at an offset.
pub fn number_line(text: &[u8], at: usize, width: usize) -> Result<usize, Refusal>
    requires { width ≤ 14 }
    ensures { (fault_of result ≡ line_fault text.now at width) × IfOk result (λ number. number ≡ number_at text.now at width) }
{
    if !feed_behind(text, at, width) {
        return Err(Refusal::Line);
    }
    match hex_digits::fields::read_digits(text, at, width) {
        Ok(number) => Ok(number),
        Err(_) => Err(bad_digit(text, at, width)),
    }
}

// The need line at an offset.
pub fn need_line(text: &[u8], at: usize) -> Result<usize, Refusal>
    ensures { ReadsLine (λ n. n ∷ []) need_fields text.now at result }
{
    number_line(text, at, 4)
}

// The header or link line at an offset.
pub fn triple_line(text: &[u8], at: usize) -> Result<Triple, Refusal>
    ensures { ReadsLine numbers_of triple_fields text.now at result }
{
    let number = number_line(text, at, 12)?;
    let two = number / 65536;
    Ok(Triple {
        first: two / 65536,
        second: two % 65536,
        third: number % 65536,
    })
}
