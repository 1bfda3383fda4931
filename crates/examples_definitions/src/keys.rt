//! Keys as bytes.

ghost use Rattle.std.specs.Prelude.{◌≡◌, ℕ, List, [], ◌∷◌, true, false, codes, replicate, length, ◌++◌};
ghost use Rattle.jet_base.specs.declared.words.ColType.TheVariants as kind;
ghost use Rattle.key_normal.specs.KeyBytes.{segment_bytes};

/// The key of the text `ABC` is one group of eight bytes, of which three are used.
pub fn key_of_three_letters()
    ensures { segment_bytes kind.Text (Some (codes "ABC")) false false ≡ 0x7f ∷ 0x41 ∷ 0x42 ∷ 0x43 ∷ 0 ∷ 0 ∷ 0 ∷ 0 ∷ 0 ∷ 3 ∷ [] }
{}

/// Keys do not tell small letters from capital ones.
pub fn key_of_three_small_letters()
    ensures { segment_bytes kind.Text (Some (codes "abc")) false false ≡ segment_bytes kind.LongText (Some (codes "ABC")) false false }
{}

/// Only the letters from `a` to `z` are folded.
pub fn key_beside_the_letters()
    ensures { segment_bytes kind.Text (Some (codes "`az{")) false false ≡ 0x7f ∷ 0x60 ∷ 0x41 ∷ 0x5a ∷ 0x7b ∷ 0 ∷ 0 ∷ 0 ∷ 0 ∷ 4 ∷ [] }
{}

/// Eight bytes fill a group, and no empty group follows.
pub fn key_of_eight_bytes()
    ensures { segment_bytes kind.Binary (Some (codes "abcdefgh")) false false ≡ 0x7f ∷ codes "abcdefgh" ++ 8 ∷ [] }
{}

/// The ninth byte begins a second group.
pub fn key_of_nine_bytes()
    ensures { segment_bytes kind.LongBinary (Some (codes "abcdefghi")) false false ≡ 0x7f ∷ codes "abcdefgh" ++ 9 ∷ 0x69 ∷ 0 ∷ 0 ∷ 0 ∷ 0 ∷ 0 ∷ 0 ∷ 0 ∷ 1 ∷ [] }
{}

/// A column of `Long` that descends: the greatest number has the least key.
pub fn descending_greatest_long()
    ensures { segment_bytes kind.Long (Some (0xff ∷ 0xff ∷ 0xff ∷ 0x7f ∷ [])) true false ≡ 0x80 ∷ 0 ∷ 0 ∷ 0 ∷ 0 ∷ [] }
{}

/// The least number has the greatest key of them.
pub fn descending_least_long()
    ensures { segment_bytes kind.Long (Some (0 ∷ 0 ∷ 0 ∷ 0x80 ∷ [])) true false ≡ 0x80 ∷ 0xff ∷ 0xff ∷ 0xff ∷ 0xff ∷ [] }
{}

/// NULL comes first among the ascending, and so last among the descending.
pub fn descending_null()
    ensures { segment_bytes kind.Long None true false ≡ 0xff ∷ [] }
{}

/// Where NULLs are sorted high it comes last among the ascending, and so first among the descending.
pub fn descending_high_null()
    ensures { segment_bytes kind.Long None true true ≡ 0x3f ∷ [] }
{}

/// An ascending NULL, low and high.
pub fn ascending_null()
    ensures low { segment_bytes kind.Text None false false ≡ 0 ∷ [] }
    ensures high { segment_bytes kind.Text None false true ≡ 0xc0 ∷ [] }
{}

/// A value without a byte is a value, and not NULL.
pub fn key_of_an_empty_value()
    ensures { segment_bytes kind.Text (Some []) false true ≡ 0x40 ∷ [] }
{}
