// Frame lines. The ends and the fleet call these, within the bounds that they ask.
ghost use Rattle.std.specs.Prelude.{◌≡◌, ◌≤◌, length};
ghost use Rattle.std.proofs.lemmas.List.Edits.{sets};
ghost use Rattle.probe_frame.specs.Frame.{frame_line, ReadsFrame};

use super::FrameLine;
use reader::numbers::number_line;
use refusals::Refusal;

// A frame's line, read in one pass: 1, then 2, or the frame's numbers.
pub fn read_frame(line: &[u8]) -> Result<FrameLine, Refusal>
    ensures { ReadsFrame line.now result }
{
    if line.len() != 15 {
        return Err(Refusal::Line);
    }
    let four = number_line(line, 0, 14)?;
    let three = four / 65536;
    let two = three / 65536;
    Ok(FrameLine {
        kind: two / 65536,
        number: two % 65536,
        from: three % 65536,
        to: four % 65536,
    })
}

// Writes a frame's line at the start.
pub fn write_frame(out: &mut [u8], kind: u8, number: u16, from: u16, to: u16)
    requires { 15 ≤ length out.old }
    ensures { out.new ≡ sets out.old 0 (frame_line (record { kind = kind; number = number; from = from; to = to })) }
{
    hex_digits::fields::put_number(out, 0, 2, kind as u32);
    table_write::line::put_triple(out, 2, number, from, to);
}
