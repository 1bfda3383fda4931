//! Words: numbers, names and values.
#![tactic(auto, unfolding(script_text::specs::Computing::computing))]

ghost use Rattle.std.specs.Prelude.{◌≡◌, [], ◌∷◌, Some, None, pos, negsuc, codes, length, replicate};
ghost use Rattle.jet_base.specs.declared.words.Given.TheVariants as given;
ghost use Rattle.script_words.specs.Words.{name_of, label_of};
ghost use Rattle.script_words.specs.Values.{given_of};

/// The numbers of a value reach from -2^63 to 2^63 - 1, without a leading zero; minus zero is zero.
pub fn numbers_have_a_range()
    ensures least { given_of (codes "n:-9223372036854775808") ≡ Some (given.Number (negsuc 9223372036854775807)) }
    ensures below { given_of (codes "n:-9223372036854775809") ≡ None }
    ensures most { given_of (codes "n:9223372036854775807") ≡ Some (given.Number (pos 9223372036854775807)) }
    ensures above { given_of (codes "n:9223372036854775808") ≡ None }
    ensures zero { given_of (codes "n:-0") ≡ Some (given.Number (pos 0)) }
    ensures leading { given_of (codes "n:01") ≡ None }
    ensures empty { given_of (codes "n:") ≡ None }
{}

/// Hexadecimal digits come in pairs and in either case, and none is a value too.
pub fn hexadecimal_digits_come_in_pairs()
    ensures pairs { given_of (codes "x:0aFF") ≡ Some (given.Bytes (10 ∷ 255 ∷ [])) }
    ensures odd { given_of (codes "x:0") ≡ None }
    ensures empty { given_of (codes "x:") ≡ Some (given.Bytes []) }
{}

/// A text stands for its own bytes, from 21 to 7E; a fill for so many of one byte.
pub fn texts_and_fills()
    ensures text { given_of (codes "t:b~!") ≡ Some (given.Bytes (98 ∷ 126 ∷ 33 ∷ [])) }
    ensures outside { given_of (116 ∷ 58 ∷ 127 ∷ []) ≡ None }
    ensures fill { given_of (codes "r:2097152:0f") ≡ Some (given.Fill 2097152 15) }
    ensures too_many { given_of (codes "r:2097153:0f") ≡ None }
    ensures null { given_of (codes "null") ≡ Some given.Null }
{}

/// A name is a letter and up to 63 letters, digits or low lines; a label is 1 to 99.
pub fn names_and_labels()
    ensures name { name_of (codes "aZ_9") ≡ Some (codes "aZ_9") }
    ensures digit { name_of (codes "9a") ≡ None }
    ensures longest { name_of (replicate 64 97) ≡ Some (replicate 64 97) }
    ensures too_long { name_of (replicate 65 97) ≡ None }
    ensures least { label_of (codes "0") ≡ None }
    ensures greatest { label_of (codes "99") ≡ Some 99 }
    ensures above { label_of (codes "100") ≡ None }
{}
