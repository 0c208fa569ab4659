// Loading scripts: text, one call a line, words and decimals apart by blanks; `#` starts a comment.
#![tactic(auto)]

pub mod kinds; // kinds.rt: what kind a line is
pub mod lines; // lines.rt: what each kind of line says
pub mod channels; // channels.rt: what a CHAN line says
pub mod whole; // whole.rt: whether a script is well formed
