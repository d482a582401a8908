// Words in lists of bytes, each operation's answer as words, and the layout's fields by number.
#![tactic(auto)]

pub mod answers;
pub mod fields;
pub mod words;
