// A piece of a script, the text's end, and a whole script, in the buffers of `script_steps`. The functions of `script_output` call these, within the bounds that they ask.
#![tactic(auto)]

pub mod ending;
pub mod pieces;
pub mod whole;
