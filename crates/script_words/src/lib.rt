// Lines of a text: their words, and the decimals and the data that a word says.
#![tactic(auto)]

pub mod text; // text.rt: lines and their words
pub mod numbers; // numbers.rt: decimals
pub mod hex; // hex.rt: data, two hexadecimal digits a byte
