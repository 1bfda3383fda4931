//! Worked examples. Each function has an empty body, and its clause says what the definitions give.

ghost use Rattle.std.specs.Prelude.{pos, false, ◌≡◌, [], ◌∷◌, ◌++◌, Some, None, codes};
ghost use Rattle.catalog_grammar.specs.Catalogs.{catalog_nodes};
ghost use Rattle.database_state.specs.State.{committed};
ghost use Rattle.jet_base.specs.Ids.{column_id, index_id};
ghost use Rattle.long_value.specs.Values.{nodes_of_values};
ghost use Rattle.version_store.specs.declared.calls.ChangeKind.TheVariants.{Drop, Add};
ghost use Rattle.image_findings.specs.FindingTexts.{finding_text};
ghost use Rattle.image_findings.specs.Findings.{finding};
ghost use Rattle.image_findings.specs.Images.Finding.{Pages, Tree, Catalog, Row, Live, Index, Unique, Long};
ghost use Rattle.image_findings.specs.OtherWriter.{with_two_writers, after_inserts};
ghost use Rattle.image_findings.specs.Samples.{added, bookmark, busy, by_number, child, empty_image, entry_node, image_of, image_with, inner, inserted_row, key_of, leaf, live_with, nothing_live, number_column, numbers, pages_of, replaced_row, row, row_node, small, sum_column, taken_back, text, text_column, text_row, writer};

/// The catalog of a database without tables has one page, with one node.
pub fn an_empty_image_is_consistent()
    ensures { finding empty_image ≡ None }
{}

/// A table with two records on two pages below an inner one, an index, sums, and a free page.
pub fn a_small_image_is_consistent()
    ensures { finding (image_of small) ≡ None }
{}

/// An open transaction has replaced a row with a long value and added to a sum of a record that another session inserted.
pub fn an_image_with_a_transaction_is_consistent()
    ensures { finding (image_of busy) ≡ None }
{}

/// The same with an undone change, whose row before names a long value that is gone.
pub fn an_undone_change_is_let_through()
    ensures { finding (image_of (record busy { live = live_with (inserted_row ∷ replaced_row ∷ added ∷ taken_back ∷ []) })) ≡ None }
{}

/// Images that another writer made: one after two inserts, and one while two sessions change records, one of them in a transaction of
/// two levels with a long value and sums.
pub fn images_of_another_writer_are_consistent()
    ensures plain { finding after_inserts ≡ None }
    ensures busy { finding with_two_writers ≡ None }
{}

/// A page that no tree has, one that two trees have, a child that is free, and keys below the bound of their page.
pub fn findings_of_trees()
    ensures no_tree { finding (image_with 0 (leaf 0 (catalog_nodes 0 []) ∷ leaf 1 [] ∷ []) nothing_live) ≡ Some (Pages 1) }
    ensures two_trees { finding (image_with 9 (pages_of (record numbers { indexes = (4, by_number) ∷ [] }) small) nothing_live) ≡ Some (Pages 4) }
    ensures free { finding (image_with 0 (inner 0 (child [] 1 ∷ []) ∷ None ∷ []) nothing_live) ≡ Some (Tree 0 1) }
    ensures bound { finding (image_of (record small { second = row_node 5 (row 3 2) ∷ [] })) ≡ Some (Tree 1 1) }
{}

/// No node tells how many tables were made, a node is cut, an index has number 0, two columns have one name, and an index is over a sum.
pub fn findings_of_catalogs()
    ensures no_greatest { finding (image_with 0 (leaf 0 [] ∷ []) nothing_live) ≡ Some Catalog }
    ensures cut { finding (image_with 0 (leaf 0 ((record { key = 0 ∷ 0 ∷ 0 ∷ 0 ∷ 0 ∷ 0 ∷ 0 ∷ []; extent = 3; «data» = 0 ∷ 0 ∷ 0 ∷ [] }) ∷ []) ∷ []) nothing_live) ≡ Some Catalog }
    ensures index_number { finding (image_with 9 (pages_of (record numbers { indexes = (3, record by_number { id = index_id 0 }) ∷ [] }) small) nothing_live) ≡ Some Catalog }
    ensures names { finding (image_with 9 (pages_of (record numbers { columns = number_column ∷ record sum_column { name = codes "n" } ∷ text_column ∷ [] }) small) nothing_live) ≡ Some Catalog }
    ensures of_a_sum { finding (image_with 9 (pages_of (record numbers { indexes = (3, record by_number { segments = (record { column = column_id 2; descending = false }) ∷ [] }) ∷ [] }) small) nothing_live) ≡ Some Catalog }
{}

/// A row under the number of an entry that was not made, one whose value is too short, a node that keeps more bytes than a row may
/// have, one without a row, and a row that is missing where an open change left it.
pub fn findings_of_rows()
    ensures bookmark { finding (image_of (record small { number = 6 })) ≡ Some (Row (codes "t") (bookmark 7)) }
    ensures short { finding (image_of (record small { first = row_node 6 (2 ∷ 0 ∷ 1 ∷ 0 ∷ 0 ∷ 1 ∷ 0 ∷ 5 ∷ 2 ∷ 0 ∷ 0 ∷ 4 ∷ 0 ∷ 0 ∷ 0 ∷ 0 ∷ 0 ∷ []) ∷ [] })) ≡ Some (Row (codes "t") (bookmark 6)) }
    ensures extent { finding (image_of (record small { first = record (row_node 6 (row 5 0)) { extent = 1701 } ∷ [] })) ≡ Some (Row (codes "t") (bookmark 6)) }
    ensures no_row { finding (image_of (record small { first = record (row_node 6 []) { extent = 20 } ∷ [] })) ≡ Some (Row (codes "t") (bookmark 6)) }
    ensures missing { finding (image_of (record busy { live = live_with (record inserted_row { bookmark = bookmark 8 } ∷ replaced_row ∷ added ∷ []) })) ≡ Some (Row (codes "t") (bookmark 8)) }
    ensures room { finding (image_of (record busy { first = record (row_node 6 (row 5 0)) { extent = 40 } ∷ []; values = nodes_of_values (text 1) })) ≡ Some (Row (codes "t") (bookmark 6)) }
{}

/// A change of no transaction, a commit at a begin, a commit that another change of its record was made before, a drop behind which there is
/// a row, more that is to end than was begun, and bytes that are no live part.
pub fn findings_of_live_parts()
    ensures orphan { finding (image_of (record busy { live = record { sessions = []; held = inserted_row ∷ replaced_row ∷ added ∷ [] } })) ≡ Some Live }
    ensures at_a_begin { finding (image_of (record busy { live = live_with (record inserted_row { status = committed 8 } ∷ replaced_row ∷ added ∷ []) })) ≡ Some Live }
    ensures not_apart { finding (image_of (record busy { live = live_with (record inserted_row { status = committed 11 } ∷ replaced_row ∷ added ∷ []) })) ≡ Some Live }
    ensures dropped { finding (image_of (record busy { live = live_with (inserted_row ∷ record replaced_row { kind = Drop } ∷ added ∷ []) })) ≡ Some Live }
    ensures no_sum { finding (image_of (record busy { live = live_with (inserted_row ∷ replaced_row ∷ record added { kind = Add (column_id 1) (pos 2) } ∷ []) })) ≡ Some Live }
    ensures undone_row { finding (image_of (record busy { live = live_with (inserted_row ∷ replaced_row ∷ added ∷ record taken_back { before = Some (1 ∷ []) } ∷ []) })) ≡ Some Live }
    ensures to_end { finding (image_of (record small { live = record { sessions = (record writer { open_tables = 1 ∷ 1 ∷ 1 ∷ 1 ∷ 1 ∷ 1 ∷ 1 ∷ 1 ∷ [] }) ∷ []; held = [] } })) ≡ Some Live }
    ensures no_part { finding (record (image_of small) { live = 0 ∷ 0 ∷ 0 ∷ [] }) ≡ Some Live }
{}

/// An entry that is missing, one too many, one of the row before an open change that is missing, and a node that keeps more bytes than an
/// entry has.
pub fn findings_of_entries()
    ensures missing { finding (image_of (record small { index = entry_node 5 6 ∷ [] })) ≡ Some (Index (codes "t") (codes "i") (key_of 3 ++ bookmark 7) 0 1) }
    ensures unwanted { finding (image_of (record small { index = entry_node 3 7 ∷ entry_node 4 7 ∷ entry_node 5 6 ∷ [] })) ≡ Some (Index (codes "t") (codes "i") (key_of 4 ++ bookmark 7) 1 0) }
    ensures before { finding (image_of (record busy { index = entry_node 3 7 ∷ entry_node 5 6 ∷ [] })) ≡ Some (Index (codes "t") (codes "i") (key_of 4 ++ bookmark 6) 0 1) }
    ensures extent { finding (image_of (record small { index = entry_node 3 7 ∷ record (entry_node 5 6) { extent = 3 } ∷ [] })) ≡ Some (Index (codes "t") (codes "i") (key_of 5 ++ bookmark 6) 0 1) }
{}

/// A key of two records, and one that an open change brings while another record has it.
pub fn findings_of_unique_keys()
    ensures two_records { finding (image_of (record small { second = row_node 7 (row 5 2) ∷ []; index = entry_node 5 6 ∷ entry_node 5 7 ∷ [] })) ≡ Some (Unique (codes "t") (codes "i") (key_of 5)) }
    ensures brought { finding (image_of (record busy { second = row_node 7 (row 5 2) ∷ []; index = entry_node 4 6 ∷ entry_node 5 6 ∷ entry_node 5 7 ∷ [] })) ≡ Some (Unique (codes "t") (codes "i") (key_of 5)) }
{}

/// A value without its chunk, one that a row names with another length, one that is not there, one that no row names, and a count that is
/// too high.
pub fn findings_of_long_values()
    ensures not_whole { finding (image_of (record busy { values = (record { key = 0 ∷ 0 ∷ 0 ∷ 0 ∷ 0 ∷ 0 ∷ 0 ∷ 6 ∷ 0 ∷ 0 ∷ 0 ∷ 0 ∷ 0 ∷ 0 ∷ 0 ∷ 0 ∷ []; extent = 8; «data» = 2 ∷ 0 ∷ 0 ∷ 0 ∷ 0 ∷ 1 ∷ 0 ∷ 0 ∷ [] }) ∷ [] })) ≡ Some (Long 6 0 0 2) }
    ensures length { finding (image_of (record busy { first = row_node 6 (text_row 5 6 257) ∷ [] })) ≡ Some (Long 6 0 0 2) }
    ensures not_there { finding (image_of (record busy { first = row_node 6 (text_row 5 4 256) ∷ [] })) ≡ Some (Long 4 0 0 1) }
    ensures forgotten { finding (image_of (record small { values = nodes_of_values (text 1) })) ≡ Some (Long 6 0 1 0) }
    ensures count { finding (image_of (record busy { values = nodes_of_values (text 3) })) ≡ Some (Long 6 0 3 2) }
{}

/// What is printed of each kind of finding.
pub fn texts_of_findings()
    ensures pages { finding_text (Pages 17) ≡ codes "integrity pages 17" }
    ensures tree { finding_text (Tree 3 12) ≡ codes "integrity tree 3 page 12" }
    ensures catalog { finding_text Catalog ≡ codes "integrity catalog" }
    ensures row { finding_text (Row (codes "t") (bookmark 26)) ≡ codes "integrity row t 000000000000001a" }
    ensures live { finding_text Live ≡ codes "integrity live" }
    ensures index { finding_text (Index (codes "t") (codes "i") (key_of 3 ++ bookmark 7) 0 1) ≡ codes "integrity index t i 7f800000030000000000000007 have 0 want 1" }
    ensures unique { finding_text (Unique (codes "t") (codes "i") (key_of 5)) ≡ codes "integrity unique t i 7f80000005" }
    ensures long { finding_text (Long 6 0 3 2) ≡ codes "integrity long 6 0 have 3 want 2" }
{}
