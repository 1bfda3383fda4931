//! What a reader walks of an index that has the keys of all variants of records.

ghost use Rattle.std.specs.Prelude.{◌≡◌, ℕ, Bool, true, false, ◌&&◌, ◌||◌, List, [], ◌∷◌, ◌++◌, Option};
ghost use Rattle.cursor_nav.specs.Places.{Pair, are_sorted};
ghost use Rattle.index_derive.specs.declared.rules.IndexRule.{IndexRule};
ghost use Rattle.index_derive.specs.declared.rules.Schema.{Schema};
ghost use Rattle.index_derive.specs.Entries.{derive};
ghost use Rattle.database_state.specs.Table.{Rows};
ghost use Rattle.version_store.specs.declared.calls.Reader.{Reader};
ghost use Rattle.laws_engine.specs.HeldRecords.{HeldRecord};
ghost use Rattle.laws_engine.specs.VersionedTables.{seen_rows};
ghost use Rattle.laws_engine.specs.Variants.{HoldsVariants, shown_entries};
ghost use Rattle.laws_engine.specs.Holding.{RowsRise};

/// Of the entries of all variants, those that the records which a reader sees have are the index that is derived afresh of
/// these records.
pub fn a_reader_walks_the_index_of_what_it_sees()
    ensures { (table : ℕ) (reader : Reader) (held : List HeldRecord) (rows : Rows) (rule : IndexRule) (schema : Schema) (entries : List Pair) → RowsRise rows → HoldsVariants rows held rule schema table entries → are_sorted entries ≡ true
        → shown_entries table reader held rows rule schema entries ≡ derive rule schema (seen_rows table reader held rows) }
{}
