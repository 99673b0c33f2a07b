// The line of a refusal, stored by the functions that print.
ghost use Rattle.std.specs.Prelude.{◌≡◌, ◌+◌, ◌≤◌, length};
ghost use Rattle.std.proofs.lemmas.List.Edits.{sets};
ghost use Rattle.output.specs.Output.{refusal_line, output_fault, Prints};

use super::Output;

// A refusal's line at an offset.
pub fn put_refusal(out: &mut [u8], at: usize, fault: u8)
    requires { at + 5 ≤ length out.old }
    ensures { out.new ≡ sets out.old at (refusal_line fault) }
{
    out[at] = b'e';
    out[at + 1] = fault / 100 % 10 + 48;
    out[at + 2] = fault / 10 % 10 + 48;
    out[at + 3] = fault % 10 + 48;
    out[at + 4] = b'\n';
}

// A refusal's line alone.
pub fn print_refusal(out: &mut [u8], fault: u8) -> Output
    ensures { Prints (output_fault (length out.old) (refusal_line fault)) (refusal_line fault) result out.old out.new }
{
    if out.len() < 5 {
        return Output::Refused(8);
    }
    put_refusal(out, 0, fault);
    Output::Length(5)
}
