//! What follows from the grammar alone, as laws.

ghost use Rattle.std.specs.Prelude.{◌≡◌, ℕ, true, Ok, List};
ghost use Rattle.session_local.specs.declared.request.Request.{Request};
ghost use Rattle.script_text.specs.Built.{are_built};
ghost use Rattle.script_text.specs.Grammar.{script_lines};

/// Every call of a script of the grammar is of a session, and one that the engine answers.
pub fn a_call_of_the_grammar_is_answered()
    ensures { (bytes : List ℕ) (calls : List (ℕ × Request)) → script_lines bytes ≡ Ok calls → are_built calls ≡ true }
{}
