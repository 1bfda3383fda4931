//! Worked examples. Each function has an empty body, and its clause says what the definitions give.
#![tactic(auto, unfolding(crate::specs::Computing::computing))]

ghost use Rattle.std.specs.Prelude.{◌≡◌, ◌++◌, [], ◌∷◌, codes};
ghost use Rattle.image_findings.specs.Images.Finding.{Index, Long};
ghost use Rattle.tool_integrity.specs.IntegrityLines.{clean_line, finding_line};

/// A database of 2,089 log entries with one table, and a new one.
pub fn lines_of_consistent_images()
    ensures loaded { clean_line 2089 1 ≡ codes "integrity clean number 2089 tables 1" ++ 10 ∷ [] }
    ensures new { clean_line 0 0 ≡ codes "integrity clean number 0 tables 0" ++ 10 ∷ [] }
{}

/// An entry that is missing, and a count that is too high.
pub fn lines_of_findings()
    ensures entry { finding_line (Index (codes "t") (codes "i") (127 ∷ 0 ∷ 16 ∷ 10 ∷ []) 0 1) ≡ codes "integrity index t i 7f00100a have 0 want 1" ++ 10 ∷ [] }
    ensures count { finding_line (Long 6 0 3 2) ≡ codes "integrity long 6 0 have 3 want 2" ++ 10 ∷ [] }
{}
