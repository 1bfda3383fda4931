//! Scripts: the grammar of a script's lines, and the calls that they are.
#![tactic(auto)]

mod bare_calls;
mod call_names;
mod calls;
mod choices;
mod flags;
mod frequent;
mod frequent_calls;
mod grammar;
mod index_words;
mod kept;
mod laws;
mod leading;
mod line;
mod open_piece;
mod parser;
mod piece;
mod recent;
mod script;
mod script_calls;
mod temp_calls;

pub use laws::a_call_of_the_grammar_is_answered;
pub use parser::ScriptParser;
pub use piece::CallPiece;
pub use script::ScriptFault;
pub use script_calls::ScriptCalls;
