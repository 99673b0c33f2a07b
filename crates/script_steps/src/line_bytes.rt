// Bytes of a piece: the line that it closes next, and bytes kept.
ghost use Rattle.std.specs.Prelude.{◌≡◌, ◌+◌, ◌-◌, ◌≤◌, length, take, drop};
ghost use Rattle.std.proofs.lemmas.List.Edits.{sets};
ghost use Rattle.script_steps.specs.Closing.{closed_length};

// The offset behind the line feed that closes the line from an offset on, or that offset where none does.
pub fn line_end(text: &[u8], at: usize) -> usize
    ensures { result ≡ at + closed_length (drop at text.now) }
{
    let found = lines::find_line(text, at);
    match found.line {
        Some(_) => found.next,
        None => at,
    }
}

// The first n bytes, copied to an offset.
pub fn copy(to: &mut [u8], at: usize, from: &[u8], n: usize)
    requires { (at + n ≤ length to.old) × (n ≤ length from.now) }
    ensures { to.new ≡ sets to.old at (take n from.now) }
{
    for i in 0..n {
        to[at + i] = from[i];
    }
}

// Bytes of an unfinished line, stored behind those held, 16 in all. Answers how many are held then.
pub fn append(line: &mut [u8], held: usize, bytes: &[u8]) -> usize
    requires { (held ≤ 16) × (16 ≤ length line.old) }
    ensures { let kept = take (16 - held) bytes.now in
        (line.new ≡ sets line.old held kept) × (result ≡ held + length kept) }
{
    if held + bytes.len() < 16 {
        copy(line, held, bytes, bytes.len());
        return held + bytes.len();
    }
    copy(line, held, bytes, 16 - held);
    16
}
