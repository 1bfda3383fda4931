//! Written values and what they store.

ghost use Rattle.std.specs.Prelude.{◌≡◌, ℕ, List, [], ◌∷◌, true, false, codes, replicate, length, ◌++◌, pos, negsuc, take};
ghost use Rattle.jet_base.specs.declared.words.ColType.TheVariants as kind;
ghost use Rattle.jet_base.specs.declared.words.ColType.{ColType};
ghost use Rattle.jet_base.specs.declared.words.Given.{Given};
ghost use Rattle.jet_base.specs.declared.words.Given.TheVariants as given;
ghost use Rattle.jet_base.specs.Given.{given_fits, given_bytes, given_front, given_length};
ghost use Rattle.jet_base.specs.ColumnType.{number_of};

/// Any byte but 00 is stored as 01 in a `Bit`, and as a number only 0 and 1 fit.
pub fn bit_from_bytes_and_numbers()
    ensures fits { given_fits kind.Bit (given.Bytes (7 ∷ [])) ≡ true }
    ensures stored { given_bytes kind.Bit (given.Bytes (7 ∷ [])) ≡ 1 ∷ [] }
    ensures number { number_of kind.Bit (1 ∷ []) ≡ pos 1 }
    ensures two { given_fits kind.Bit (given.Number (pos 2)) ≡ false }
{}

/// Bytes of a `Short` stand lowest first, and there are two of them.
pub fn short_from_bytes()
    ensures number { number_of kind.Short (given_bytes kind.Short (given.Bytes (1 ∷ 2 ∷ []))) ≡ pos 513 }
    ensures one_byte { given_fits kind.Short (given.Bytes (1 ∷ [])) ≡ false }
{}

/// Negative numbers are stored in two's complement.
pub fn negative_long()
    ensures stored { given_bytes kind.Long (given.Number (negsuc 0)) ≡ 255 ∷ 255 ∷ 255 ∷ 255 ∷ [] }
    ensures number { number_of kind.Long (255 ∷ 255 ∷ 255 ∷ 255 ∷ []) ≡ negsuc 0 }
    ensures unsigned { number_of kind.UnsignedLong (255 ∷ 255 ∷ 255 ∷ 255 ∷ []) ≡ pos 4294967295 }
{}

/// The least and the greatest number of eight bytes.
pub fn bounds_of_currency()
    ensures least { number_of kind.Currency (given_bytes kind.Currency (given.Number (negsuc 9223372036854775807))) ≡ negsuc 9223372036854775807 }
    ensures greatest { number_of kind.Currency (given_bytes kind.Currency (given.Number (pos 9223372036854775807))) ≡ pos 9223372036854775807 }
{}

/// A number is no text, and a text may be empty.
pub fn texts()
    ensures number { given_fits kind.Text (given.Number (pos 5)) ≡ false }
    ensures empty { given_fits kind.Text (given.Bytes []) ≡ true }
    ensures null { given_fits kind.Text given.Null ≡ true }
{}

/// Of a long repetition only the front is spelled out.
pub fn long_repetition()
    ensures len { given_length (given.Fill 1048577 97) ≡ 1048577 }
    ensures front { given_front 3 kind.LongText (given.Fill 1048577 97) ≡ codes "aaa" }
    ensures short_of_it { given_front 3 kind.LongText (given.Fill 2 97) ≡ codes "aa" }
    ensures guid { given_fits kind.Guid (given.Fill 16 97) ≡ true }
{}

/// The front of a written value is the front of what it stores, however long that is.
pub fn front_of_a_written_value()
    ensures { (n : ℕ) (kind : ColType) (value : Given) → given_front n kind value ≡ take n (given_bytes kind value) }
{}
