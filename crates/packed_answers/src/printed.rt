// The answer of a call that prints, as one number. The libraries for C and Rust call this.
ghost use Rattle.std.specs.Prelude.{◌≡◌, ℕ, ◌^◌, ◌<◌};
ghost use Rattle.output.specs.Output.{output_reply};
ghost use Rattle.output.specs.declared.Output.TheVariants.{Length as Printed};
ghost use Rattle.packed_answers.specs.Packed.{packed_value};

use output::Output;

pub fn packed_output(r: Output) -> u64
    requires { (length : ℕ) → r ≡ Printed length → length < 2 ^ 63 }
    ensures { result ≡ packed_value (output_reply r) }
{
    match r {
        Output::Length(length) => length as u64 + super::ANSWER_BASE,
        Output::Refused(refusal) => refusal as u64,
    }
}
