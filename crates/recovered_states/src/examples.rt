//! Worked examples of what files recover to. Each function does nothing, and its clause says what the definitions give.

ghost use Rattle.std.specs.Prelude.{◌≡◌, ◌++◌, ◌∷◌, [], None};
ghost use Rattle.database_state.specs.State.{DatabaseState, empty_state};
ghost use Rattle.jet_volume.specs.Image.{no_bytes};
ghost use Rattle.log_grammar.specs.EntryStreams.{stream_bytes};
ghost use Rattle.page_image.specs.Page.{page_bytes};
ghost use Rattle.recovered_states.specs.Recovers.{Recovers, RecoversFrom};
ghost use Rattle.recovered_states.specs.Samples.{catalog_page, commit_entries, front_of_a_commit, put_entries, table_entries, the_record, with_rows};

use laws_engine::an_empty_engine_holds_the_empty_state;

/// The file of a first checkpoint: no log entry, the log goes on at its beginning, one page, which is the catalog's root and stands in its
/// first slot, and a live part without a session.
const FIRST: [u8; 67] = [
    1, 0x4a, 0x45, 0x54, 0x43, 0x4b, 1, 0, 0, 0, 1, 0, 0, 0, 0, 0, 0, 0, 0, 0, 0, 0, 0, 0, 0, 0, 1,
    0, 0, 0, 0, 0, 0, 0, 0, 0, 0, 0, 0, 0, 0, 0, 0, 0, 0, 0, 0, 0, 0, 0, 1, 0, 0, 0, 0, 8, 0, 0, 0,
    0, 0, 0, 0, 0, 0, 0, 0,
];

/// A block behind its gate, and the gate behind it: session 1 enters, and the first five bytes of a Begin.
const BLOCK: [u8; 35] = [
    1, 0, 0, 0, 0, 0, 0, 0, 0, 0, 0, 0, 0, 0, 0, 0, 14, 0, 0, 0, 5, 0, 0, 0, 1, 1, 0, 0, 0, 5, 0,
    0, 0, 5, 0,
];

/// Files without a byte recover to the empty database.
pub fn a_new_volume_recovers_to_an_empty_database()
    ensures { Recovers no_bytes empty_state }
{}

/// Four files: the page of a catalog without a table, a checkpoint, and a log with one whole entry, of which the session is given up. The
/// entry behind it is cut, and dropped.
pub fn four_small_files_recover()
    ensures { Recovers (record no_bytes { database = page_bytes catalog_page; checkpoint_a = FIRST; log = 1 ∷ BLOCK }) (record empty_state { number = 1 }) }
{
    an_empty_engine_holds_the_empty_state();
}

/// A log from the first entry on. What was committed stays; a transaction that stands open at the end is undone, also where the end is the
/// front of its Commit; and nothing is recovered of a log with an entry that may not come.
pub fn what_logs_recover_to()
    ensures committed { RecoversFrom None (stream_bytes (table_entries ++ put_entries ++ commit_entries)) (with_rows 6 the_record) }
    ensures undone { RecoversFrom None (stream_bytes (table_entries ++ put_entries)) (with_rows 5 []) }
    ensures cut { RecoversFrom None (stream_bytes (table_entries ++ put_entries) ++ front_of_a_commit) (with_rows 5 []) }
    ensures not_lawful { (state : DatabaseState) → RecoversFrom None (stream_bytes commit_entries) state → ⊥ }
{}
