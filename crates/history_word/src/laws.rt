//! Laws of logs, for the crates above.

ghost use Rattle.std.specs.Prelude.{◌≡◌, ℕ, ◌==◌, ◌⊎◌, List, [], ◌∷◌, ◌++◌, filter};
ghost use mathlib.Core.List.{IsPrefix};
ghost use Rattle.index_derive.specs.declared.log.Entry.{Entry};
ghost use Rattle.history_word.specs.Parts.{own_entries};

/// Of two seats that have seen beginnings of one log, one has seen a beginning of what the other has seen.
pub fn logs_of_one_word_agree()
    ensures { (one other whole : List Entry) → IsPrefix one whole → IsPrefix other whole → IsPrefix one other ⊎ IsPrefix other one }
{}

/// The own entries of a seat that holds the right of one session are the entries of that session.
///
/// So where a call tells that a seat's own entries are those of a longer log, the seat has seen all entries of its
/// session in that log.
pub fn has_all_entries_of_its_session()
    ensures { (session : ℕ) (seen whole : List Entry) → own_entries (session ∷ []) whole ≡ own_entries (session ∷ []) seen
        → filter (λ e. e.session.0 == session) seen ≡ filter (λ e. e.session.0 == session) whole }
{}

/// Where a log goes on and the own entries stay, none of the entries between is an own one.
pub fn entries_between_are_of_others()
    ensures { (rights : List ℕ) (seen more : List Entry) → own_entries rights (seen ++ more) ≡ own_entries rights seen → own_entries rights more ≡ [] }
{}
