//! Worked examples of what stands on four files. These do nothing: their clauses are the examples.

ghost use Rattle.std.specs.Prelude.{◌≡◌, ◌++◌, ℕ, List, [], ◌∷◌, Some, None};
ghost use Rattle.jet_volume.specs.Image.{no_bytes};
ghost use Rattle.store_core.specs.Stands.{Stands};

/// The file of a first checkpoint: five log entries, the log goes on at its beginning, one page, which is free, and a
/// live part of four bytes.
const FIRST: [u8; 63] = [
    1, 0x4a, 0x45, 0x54, 0x43, 0x4b, 1, 0, 0, 0, 1, 0, 0, 0, 0, 0, 0, 0, 5, 0, 0, 0, 0, 0, 0, 0, 1,
    0, 0, 0, 0, 0, 0, 0, 0, 0, 0, 0, 0, 0, 0, 0, 0, 0, 0, 0, 0, 0, 0, 0, 1, 0, 0, 0, 2, 4, 0, 0, 0,
    9, 8, 7, 6,
];

/// A block of the two bytes 3 and 5 behind its gate, and the gate behind it.
const BLOCK: [u8; 23] = [
    1, 0, 0, 0, 0, 0, 0, 0, 0, 0, 0, 0, 0, 0, 0, 0, 2, 0, 0, 0, 3, 5, 0,
];

/// On files without a byte no checkpoint stands, and no byte of the log.
pub fn a_new_volume()
    ensures { Stands None [] no_bytes }
{}

/// A checkpoint stands with the bytes of a block whose gate is open, and without those of one whose gate is closed.
pub fn a_checkpoint_and_a_block()
    ensures opened { Stands (Some (record { number = 1; entries = 5; start = record { generation = 1; offset = 0; position = 0 }; catalog_root = 0; pages = None ∷ []; live = 9 ∷ 8 ∷ 7 ∷ 6 ∷ [] }))
        (3 ∷ 5 ∷ []) (record no_bytes { checkpoint_a = FIRST; log = 1 ∷ BLOCK }) }
    ensures closed { Stands (Some (record { number = 1; entries = 5; start = record { generation = 1; offset = 0; position = 0 }; catalog_root = 0; pages = None ∷ []; live = 9 ∷ 8 ∷ 7 ∷ 6 ∷ [] }))
        [] (record no_bytes { checkpoint_a = FIRST; log = 0 ∷ BLOCK }) }
{}
