// The plan of a table's text, as the plan program prints it.
#![tactic(auto)]

ghost use Rattle.plan_output.specs.Output.{PrintsText};

use output::Output;

pub mod text;

// Prints the plan of the table that a text gives, or the text's refusal.
pub fn plan_text(text: &[u8], out: &mut [u8]) -> Output
    ensures { PrintsText 256 2048 text.now result out.old out.new }
{
    text::plan_text::<256, 2048>(text, out)
}
