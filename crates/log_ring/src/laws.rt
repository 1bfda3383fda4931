//! What the definitions say of single cases, and that a scan has one outcome. These do nothing: their clauses are
//! the laws.

ghost use Rattle.std.specs.Prelude.{◌≡◌, ◌+◌, ◌*◌, Some, None, List, ℕ, [], ◌∷◌};
ghost use Rattle.jet_volume.specs.declared.files.LogStart.{LogStart};
ghost use Rattle.log_ring.specs.Blocks.{Scans, next_generation};
ghost use Rattle.log_ring.specs.Gates.{appended, place_for};
ghost use Rattle.log_ring.specs.Ready.{IsReady};

/// A log gives one stream and one end from a place on.
pub fn scans_once()
    ensures stream { (log : List ℕ) (from : LogStart) (one other : List ℕ) (end last : LogStart) → Scans log from one end → Scans log from other last → one ≡ other }
    ensures end { (log : List ℕ) (from : LogStart) (one other : List ℕ) (end last : LogStart) → Scans log from one end → Scans log from other last → end ≡ last }
{}

/// A log that can be appended to gives no bytes from its own end on, and can be appended to from there: so it stands
/// behind a checkpoint whose log goes on at that end. A log without a byte can be appended to at its beginning.
pub fn ready_from_the_end()
    ensures end { (log : List ℕ) (from : LogStart) (stream : List ℕ) (end : LogStart) → IsReady log from stream end → IsReady log end [] end }
    ensures empty { IsReady [] (record { generation = 1; offset = 0; position = 0 }) [] (record { generation = 1; offset = 0; position = 0 }) }
{}

/// The bytes of a log whose first block holds nine bytes: an open gate, generation 1, start 0, length 9, the
/// payload, and a closed gate.
pub fn first_block()
    ensures { appended (record { generation = 1; offset = 0; position = 0 }) (5 ∷ 0 ∷ 0 ∷ 0 ∷ 5 ∷ 1 ∷ 0 ∷ 0 ∷ 0 ∷ []) []
        ≡ 1 ∷ 1 ∷ 0 ∷ 0 ∷ 0 ∷ 0 ∷ 0 ∷ 0 ∷ 0 ∷ 0 ∷ 0 ∷ 0 ∷ 0 ∷ 0 ∷ 0 ∷ 0 ∷ 0 ∷ 9 ∷ 0 ∷ 0 ∷ 0 ∷ 5 ∷ 0 ∷ 0 ∷ 0 ∷ 5 ∷ 1 ∷ 0 ∷ 0 ∷ 0 ∷ 0 ∷ [] }
{}

/// A generation has room for 16 blocks of 65,500 bytes. Behind those of the eighth generation, counted from that
/// of the standing checkpoint, 218 bytes still fit, and 219 have no room.
pub fn room()
    ensures last { (position : ℕ) → place_for 1 (record { generation = 1; offset = 15 * 65521; position = position }) 65500 ≡ Some (record { generation = 1; offset = 15 * 65521; position = position }) }
    ensures next { (position : ℕ) → place_for 1 (record { generation = 1; offset = 16 * 65521; position = position }) 65500 ≡ Some (record { generation = 2; offset = 0; position = position }) }
    ensures eighth { (position : ℕ) → place_for 1 (record { generation = 7; offset = 16 * 65521; position = position }) 65500 ≡ Some (record { generation = 8; offset = 0; position = position }) }
    ensures fits { (position : ℕ) → place_for 1 (record { generation = 8; offset = 16 * 65521; position = position }) 218 ≡ Some (record { generation = 8; offset = 16 * 65521; position = position }) }
    ensures no_room { (position : ℕ) → place_for 1 (record { generation = 8; offset = 16 * 65521; position = position }) 219 ≡ None }
{}
