// The lines that the script program prints, stored within the bounds that these functions ask, or where they fit.
ghost use Rattle.std.specs.Prelude.{◌≡◌, cond, [], ◌+◌, ◌≤◌, eqb, length};
ghost use Rattle.std.proofs.lemmas.List.Edits.{sets};
ghost use Rattle.output.specs.Output.{refusal_line};
ghost use Rattle.script_theory.specs.Script.{entry_line, answer_line, last_line};
ghost use Rattle.script_lines.specs.Fitting.{capped, stored_within};

// No slice has so many bytes.
const MOST_BYTES: usize = 9223372036854775808;

// A length, counted as far as a slice can be long.
pub fn cap(length: usize) -> usize
    ensures { result ≡ capped length }
{
    if length < MOST_BYTES {
        return length;
    }
    MOST_BYTES
}

// An entry's line.
pub fn put_entry(out: &mut [u8], at: usize, e: wake_log::Entry)
    requires { at + 15 ≤ length out.old }
    ensures { out.new ≡ sets out.old at (entry_line e) }
{
    let what = e.what;
    hex_digits::fields::put_number(out, at, 4, e.probe as u32);
    hex_digits::fields::put_number(out, at + 4, 2, wake_log::codes::code(what) as u32);
    hex_digits::fields::put_number(out, at + 6, 4, wake_log::codes::link_place(what) as u32);
    hex_digits::fields::put_number(
        out,
        at + 10,
        4,
        wake_log::codes::displaced_probe(what) as u32,
    );
    out[at + 14] = b'\n';
}

// An entry's line, where it fits. Answers where the next line starts.
fn put_logged(out: &mut [u8], at: usize, e: wake_log::Entry) -> usize
    requires { at ≤ 9223372036854775808 }
    ensures { (out.new ≡ stored_within out.old at (entry_line e)) × (result ≡ capped (at + 15)) }
{
    let next = at + 15;
    if out.len() < next {
        return cap(next);
    }
    put_entry(out, at, e);
    next
}

// A refusal's line, where it fits. Answers where the next line starts.
pub fn put_refused(out: &mut [u8], at: usize, fault: u8) -> usize
    requires { at ≤ 9223372036854775808 }
    ensures { (out.new ≡ stored_within out.old at (refusal_line fault)) × (result ≡ capped (at + 5)) }
{
    let next = at + 5;
    if out.len() < next {
        return cap(next);
    }
    output::refusals::put_refusal(out, at, fault);
    next
}

// An answer's line, where it fits. Answers where the next line starts.
pub fn put_answer(out: &mut [u8], at: usize, answer: wake_log::Answer) -> usize
    requires { at ≤ 9223372036854775808 }
    ensures { (out.new ≡ stored_within out.old at (answer_line answer)) × (result ≡ capped (at + length (answer_line answer))) }
{
    match answer {
        wake_log::Answer::Logged(e) => put_logged(out, at, e),
        wake_log::Answer::Refused(fault) => put_refused(out, at, fault),
    }
}

// The last line.
pub fn put_last(out: &mut [u8], at: usize, done: bool, changed: u32)
    requires { at + 11 ≤ length out.old }
    ensures { out.new ≡ sets out.old at (last_line done changed) }
{
    let mut flag = 0;
    if done {
        flag = 1;
    }
    hex_digits::fields::put_number(out, at, 2, flag);
    hex_digits::fields::put_number(out, at + 2, 8, changed);
    out[at + 10] = b'\n';
}

// The refusal of a last line without its line feed. Answers where the next line starts.
pub fn put_unclosed(out: &mut [u8], at: usize, held: u32) -> usize
    requires { at + 5 ≤ length out.old }
    ensures { (out.new ≡ sets out.old at (cond (eqb held 0) [] (refusal_line 1))) × (result ≡ at + cond (eqb held 0) 0 5) }
{
    if held == 0 {
        return at;
    }
    output::refusals::put_refusal(out, at, 1);
    at + 5
}
