// Fields of digits. The table's reader and writer, the frames and the programs call these, within the bounds that they ask.
ghost use Rattle.std.specs.Prelude.{◌≡◌, ℕ, ◌+◌, ◌≤◌, ◌<◌, length, get_or};
ghost use Rattle.std.proofs.lemmas.List.Edits.{sets};
ghost use Rattle.hex_digits.specs.Digits.{value_of, digit_of, number_in, digits};

fn wide(x: u8) -> usize
    ensures { result ≡ x }
{
    x as usize
}

// In one pass, by the table of the bytes' values. No 14 digits have values that add up to 255, which a byte that is no digit has alone.
fn read_by(values: &[u8], text: &[u8], at: usize, width: usize) -> Result<usize, usize>
    requires { ((b : ℕ) → b < 256 → get_or values.now b 0 ≡ value_of b) × (length values.now ≡ 256) × (at + width ≤ length text.now) × (width ≤ 14) }
    ensures { result ≡ number_in text.now at width }
{
    let mut number: usize = 0;
    let mut sum: usize = 0;
    for i in 0..width {
        let value = wide(values[wide(text[at + i])]);
        number = number * 16 + value;
        sum += value;
    }
    let good = sum < 255;
    if good { Ok(number) } else { Err(number) }
}

// The number that bytes from an offset on write, by the table of their values: `Ok` where each is a digit.
pub fn read_digits(text: &[u8], at: usize, width: usize) -> Result<usize, usize>
    requires { (at + width ≤ length text.now) × (width ≤ 14) }
    ensures { result ≡ number_in text.now at width }
{
    read_by(&super::values::VALUES, text, at, width)
}

// The byte of a digit value.
fn digit(v: u8) -> u8
    requires { v < 16 }
    ensures { result ≡ digit_of v }
{
    if v < 10 { v + 48 } else { v + 87 }
}

// Writes a number as digits from an offset on, the lowest first.
pub fn put_number(out: &mut [u8], at: usize, width: usize, number: u32)
    requires { at + width ≤ length out.old }
    ensures { out.new ≡ sets out.old at (digits width number) }
{
    let mut v = number;
    for i in (0..width).rev() {
        out[at + i] = digit((v % 16) as u8);
        v = v / 16;
    }
}
