//! Worked examples of the texts. Each function has an empty body, and its clause says what the definitions give.
#![tactic(auto, unfolding(crate::specs::Computing::computing))]

ghost use Rattle.std.specs.Prelude.{◌≡◌, [], ◌∷◌, codes, false, None, pos, Some, true};
ghost use Rattle.std.specs.List.{flat_map};
ghost use Rattle.jet_base.specs.Ids.{column_id, table_id};
ghost use Rattle.column_set.specs.declared.changes.Change.TheVariants as change;
ghost use Rattle.index_derive.specs.declared.log.EntryKind.TheVariants as kind;
ghost use Rattle.index_derive.specs.declared.schema_calls.SchemaStep.TheVariants as step;
ghost use Rattle.log_grammar.specs.Samples.{of_session_1};
ghost use Rattle.image_findings.specs.OtherWriter.{with_two_writers};
ghost use Rattle.image_findings.specs.Samples.{busy, empty_image, image_of, small};
ghost use Rattle.tool_dump.specs.DumpTexts.{checkpoint_text, header_text, line, log_text};
ghost use Rattle.tool_dump.specs.Samples.{of_session};
ghost use Rattle.tool_dump.specs.SpaceTexts.{space_text};

/// A volume that a run of ten entries has closed: its second checkpoint holds them all, and stands behind the 209 bytes of their log.
pub fn a_closed_volume()
    ensures header { header_text (record { has_session = false; has_entry = false; format = 1; number = 10; tables = 1 }) ≡ flat_map line (codes "state clean" ∷ codes "format 1" ∷ codes "number 10" ∷ codes "tables 1" ∷ []) }
    ensures checkpoint { checkpoint_text 2 (record { generation = 1; offset = 314; position = 209 }) 5 ≡ flat_map line (codes "checkpoint 2" ∷ codes "generation 1" ∷ codes "offset 314" ∷ codes "position 209" ∷ codes "pages 5" ∷ []) }
    ensures log { log_text 10 [] ≡ [] }
{}

/// A volume on which nothing stands yet.
pub fn a_new_volume()
    ensures header { header_text (record { has_session = false; has_entry = false; format = 1; number = 0; tables = 0 }) ≡ flat_map line (codes "state clean" ∷ codes "format 1" ∷ codes "number 0" ∷ codes "tables 0" ∷ []) }
    ensures checkpoint { checkpoint_text 0 (record { generation = 1; offset = 0; position = 0 }) 0 ≡ flat_map line (codes "checkpoint 0" ∷ codes "generation 1" ∷ codes "offset 0" ∷ codes "position 0" ∷ codes "pages 0" ∷ []) }
    ensures log { log_text 0 [] ≡ [] }
{}

/// A crash leaves a session in the checkpoint, or entries behind it.
pub fn volumes_that_were_not_closed()
    ensures session { header_text (record { has_session = true; has_entry = false; format = 1; number = 3; tables = 0 }) ≡ flat_map line (codes "state dirty" ∷ codes "format 1" ∷ codes "number 3" ∷ codes "tables 0" ∷ []) }
    ensures entry { header_text (record { has_session = false; has_entry = true; format = 1; number = 3; tables = 2 }) ≡ flat_map line (codes "state dirty" ∷ codes "format 1" ∷ codes "number 3" ∷ codes "tables 2" ∷ []) }
{}

/// The entries behind a checkpoint of eight: their numbers go on from there.
pub fn lines_of_a_log()
    ensures { log_text 8 (of_session 1 kind.Enter ∷ of_session 99 kind.Enter ∷ of_session 1 kind.Begin ∷ []) ≡ flat_map line (codes "9 Enter 1" ∷ codes "10 Enter 99" ∷ codes "11 Begin 1" ∷ []) }
{}

/// An entry of each tag.
pub fn names_of_tags()
    ensures sessions { log_text 0 (of_session_1 kind.Enter ∷ of_session_1 kind.Leave ∷ of_session_1 (kind.Open (table_id 1)) ∷ of_session_1 (kind.Shut (table_id 1)) ∷ []) ≡ flat_map line (codes "1 Enter 1" ∷ codes "2 Leave 1" ∷ codes "3 Open 1" ∷ codes "4 Shut 1" ∷ []) }
    ensures begins { log_text 4 (of_session_1 kind.Begin ∷ of_session_1 kind.Save ∷ []) ≡ flat_map line (codes "5 Begin 1" ∷ codes "6 Save 1" ∷ []) }
    ensures changes { log_text 6 (of_session_1 (kind.Change (change.Put (table_id 1) (9 ∷ []) None [])) ∷ of_session_1 (kind.Change (change.Drop (table_id 1) (9 ∷ []))) ∷ of_session_1 (kind.Change (change.Add (table_id 1) (9 ∷ []) (column_id 2) (pos 1))) ∷ of_session_1 (kind.Change (change.Hold (table_id 1) (9 ∷ []))) ∷ [])
        ≡ flat_map line (codes "7 Put 1" ∷ codes "8 Drop 1" ∷ codes "9 Add 1" ∷ codes "10 Hold 1" ∷ []) }
    ensures ends { log_text 10 (of_session_1 kind.Release ∷ of_session_1 kind.Undo ∷ of_session_1 kind.UndoAll ∷ of_session_1 kind.Commit ∷ []) ≡ flat_map line (codes "11 Release 1" ∷ codes "12 Undo 1" ∷ codes "13 UndoAll 1" ∷ codes "14 Commit 1" ∷ []) }
    ensures schema { log_text 14 (of_session_1 (kind.Schema (step.DeleteTable (table_id 1))) ∷ []) ≡ line (codes "15 Schema 1") }
{}

/// A space without a page, and one with the catalog of a database without tables.
pub fn spaces_without_tables()
    ensures new { space_text [] None ≡ line (codes "space pages 0 free 0") }
    ensures empty { space_text empty_image.pages (Some empty_image.catalog_root) ≡ flat_map line (codes "space pages 1 free 0" ∷ codes "tree catalog nodes 1 pages 1" ∷ []) }
{}

/// A table with two records on two pages below an inner one, an index, and a free page; and one with a long value that two rows share.
/// The pages of all trees and the free ones are all pages.
pub fn spaces_with_a_table()
    ensures small { space_text (image_of small).pages (Some (image_of small).catalog_root) ≡ flat_map line (codes "space pages 7 free 1" ∷ codes "tree catalog nodes 6 pages 1" ∷ codes "tree t records 2 pages 3" ∷ codes "tree t i nodes 2 pages 1" ∷ codes "tree t long 0 pages 1" ∷ []) }
    ensures shared { space_text (image_of busy).pages (Some (image_of busy).catalog_root) ≡ flat_map line (codes "space pages 7 free 1" ∷ codes "tree catalog nodes 6 pages 1" ∷ codes "tree t records 2 pages 3" ∷ codes "tree t i nodes 3 pages 1" ∷ codes "tree t long 1 pages 1" ∷ []) }
{}

/// A primary index has no tree, and the others come by rising number.
pub fn spaces_with_a_primary_index()
    ensures { space_text with_two_writers.pages (Some with_two_writers.catalog_root) ≡ flat_map line (codes "space pages 5 free 0" ∷ codes "tree catalog nodes 9 pages 1" ∷ codes "tree t records 2 pages 1" ∷ codes "tree t un nodes 3 pages 1" ∷ codes "tree t ml nodes 2 pages 1" ∷ codes "tree t long 0 pages 1" ∷ []) }
{}
