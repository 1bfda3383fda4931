//! What is known of the rows of a table once nothing is found of the catalog and of its long values.

ghost use Rattle.std.specs.Prelude.{◌≡◌, ℕ, true, List, [], None, Some, map};
ghost use Rattle.std.specs.List.{AllByRecursion};
ghost use Rattle.catalog_grammar.specs.Catalogs.{CatalogTable};
ghost use Rattle.database_state.specs.Table.{schema_of};
ghost use Rattle.image_contents.specs.LegalRules.{HasLegalRules};
ghost use Rattle.image_contents.specs.RowsRead.{HasReadableRows};
ghost use Rattle.image_findings.specs.CatalogFindings.{CatalogTold, catalog_told, is_sound_catalog, table_of};
ghost use Rattle.image_findings.specs.TableContents.{TableContents};
ghost use Rattle.image_findings.specs.ValueFindings.{broken_values, missing_values, value_finding};
ghost use Rattle.image_opening.specs.OpenedTrees.{HasContents};
ghost use Rattle.image_opening.specs.declared.opened.OpenedTable.{OpenedTable};
ghost use Rattle.page_image.specs.Page.{Node};
ghost use Rattle.page_space.specs.Frames.{Frames};
ghost use Rattle.version_store.specs.HeldChanges.{HeldChange};

use crate::values::values_that_are_not_broken_are_whole;

/// The keys of each index of a sound catalog can be derived: it is legal, and they have 255 bytes at most.
#[tactic(none)]
pub fn tables_of_a_sound_catalog_have_legal_rules()
    ensures { (nodes : List Node) (told : CatalogTold) → catalog_told nodes ≡ Some told → is_sound_catalog told.greatest (map table_of told.tables) ≡ true → AllByRecursion (λ (x : CatalogTable). HasLegalRules (schema_of (table_of x))) told.tables }
{
    image_findings::tables_that_a_sound_catalog_tells_are_built();
}

/// Where no long value of a table is broken and none that a row names is missing, its rows can be read with their long values: so it
/// is where nothing is found of its long values. The counts of these may be any, and so may the rows.
#[tactic(none)]
pub fn tables_without_broken_or_missing_values_have_readable_rows()
    ensures lists { (frames : Frames) (table : OpenedTable) (t : TableContents) (number : ℕ) (held : List HeldChange) → HasContents frames table t → HasLegalRules (schema_of t.table) → broken_values number t ≡ [] → missing_values held t ≡ [] → HasReadableRows t }
    ensures finding { (frames : Frames) (table : OpenedTable) (t : TableContents) (number : ℕ) (held : List HeldChange) → HasContents frames table t → HasLegalRules (schema_of t.table) → value_finding number held t ≡ None → HasReadableRows t }
{
    values_that_are_not_broken_are_whole();
    image_findings::rows_without_missing_values_are_whole();
}
