//! Worked examples of the nodes of a catalog. Each function has an empty body, and its clause says what the definitions give.
#![tactic(auto, unfolding(crate::specs::CatalogBytes::table_data, crate::specs::CatalogBytes::index_data))]

ghost use Rattle.std.specs.Prelude.{◌≡◌, [], ◌∷◌, true, false, codes, replicate};
ghost use Rattle.jet_base.specs.Ids.{index_id, table_id};
ghost use Rattle.catalog_grammar.specs.CatalogBytes.{catalog_node, item_fits};
ghost use Rattle.catalog_grammar.specs.Catalogs.{catalog_fits, catalog_nodes, catalog_table};
ghost use Rattle.catalog_grammar.specs.Samples.{by_mail, id_column, mail_column, people, people_roots, spare, spare_roots};
ghost use Rattle.catalog_grammar.specs.declared.items.CatalogItem.TheVariants as item;

/// The catalog of an empty database has one node, with the greatest table that was ever given.
pub fn nodes_of_an_empty_catalog()
    ensures new { catalog_nodes 0 [] ≡ catalog_node (0 ∷ 0 ∷ 0 ∷ 0 ∷ 0 ∷ 0 ∷ 0 ∷ []) (0 ∷ 0 ∷ 0 ∷ 0 ∷ []) ∷ [] }
    ensures used { catalog_nodes 300 [] ≡ catalog_node (0 ∷ 0 ∷ 0 ∷ 0 ∷ 0 ∷ 0 ∷ 0 ∷ []) (0x2c ∷ 1 ∷ 0 ∷ 0 ∷ []) ∷ [] }
    ensures fits { catalog_fits 0 [] ≡ true }
{}

/// Two tables, one of them with two columns and two indexes: the tables come first, then the columns of all tables, then
/// their indexes, each by rising number, whatever the order of their making.
pub fn nodes_of_two_tables()
    ensures nodes { catalog_nodes 300 (catalog_table (spare, spare_roots) ∷ catalog_table (people, people_roots) ∷ [])
        ≡ catalog_node (0 ∷ 0 ∷ 0 ∷ 0 ∷ 0 ∷ 0 ∷ 0 ∷ []) (0x2c ∷ 1 ∷ 0 ∷ 0 ∷ [])
        ∷ catalog_node (1 ∷ 0 ∷ 0 ∷ 0 ∷ 1 ∷ 0 ∷ 0 ∷ []) (3 ∷ 0 ∷ 0 ∷ 0 ∷ 4 ∷ 0 ∷ 0 ∷ 0 ∷ 0 ∷ 0 ∷ 127 ∷ 0 ∷ 255 ∷ 0 ∷ 1 ∷ 0x73 ∷ [])
        ∷ catalog_node (1 ∷ 0 ∷ 0 ∷ 1 ∷ 2 ∷ 0 ∷ 0 ∷ []) (5 ∷ 0 ∷ 0 ∷ 0 ∷ 6 ∷ 0 ∷ 0 ∷ 0 ∷ 2 ∷ 0 ∷ 127 ∷ 0 ∷ 1 ∷ 1 ∷ 6 ∷ 0x70 ∷ 0x65 ∷ 0x6f ∷ 0x70 ∷ 0x6c ∷ 0x65 ∷ [])
        ∷ catalog_node (2 ∷ 0 ∷ 0 ∷ 1 ∷ 2 ∷ 0 ∷ 1 ∷ []) (5 ∷ 4 ∷ 2 ∷ 0x69 ∷ 0x64 ∷ [])
        ∷ catalog_node (2 ∷ 0 ∷ 0 ∷ 1 ∷ 2 ∷ 1 ∷ 0 ∷ []) (11 ∷ 3 ∷ 4 ∷ 0x6d ∷ 0x61 ∷ 0x69 ∷ 0x6c ∷ [])
        ∷ catalog_node (3 ∷ 0 ∷ 0 ∷ 1 ∷ 2 ∷ 0 ∷ 1 ∷ []) (7 ∷ 0 ∷ 1 ∷ 0 ∷ 2 ∷ 0 ∷ 0 ∷ 0 ∷ 0 ∷ 2 ∷ 1 ∷ 0 ∷ 1 ∷ 1 ∷ 1 ∷ 0 ∷ 1 ∷ 0 ∷ 1 ∷ 0x6d ∷ [])
        ∷ catalog_node (3 ∷ 0 ∷ 0 ∷ 1 ∷ 2 ∷ 0 ∷ 2 ∷ []) (0 ∷ 0 ∷ 0 ∷ 0 ∷ 1 ∷ 0 ∷ 0 ∷ 0 ∷ 1 ∷ 0 ∷ 1 ∷ 1 ∷ 0 ∷ 0 ∷ 0 ∷ 2 ∷ 0x70 ∷ 0x6b ∷ []) ∷ [] }
    ensures fits { catalog_fits 300 (catalog_table (spare, spare_roots) ∷ catalog_table (people, people_roots) ∷ []) ≡ true }
    ensures falling { catalog_fits 300 (catalog_table (people, people_roots) ∷ catalog_table (spare, spare_roots) ∷ []) ≡ false }
    ensures twice { catalog_fits 300 (catalog_table (spare, spare_roots) ∷ catalog_table (spare, spare_roots) ∷ []) ≡ false }
    ensures numberless { catalog_fits 300 (catalog_table (record people { indexes = record by_mail { id = index_id 0 } ∷ [] }, people_roots) ∷ []) ≡ false }
{}

/// A name has 1 to 64 bytes, and a number has the bytes for it.
pub fn items_that_are_spelled()
    ensures greatest { item_fits (item.Greatest 4294967295) ≡ true }
    ensures past_greatest { item_fits (item.Greatest 4294967296) ≡ false }
    ensures nameless { item_fits (item.Column (table_id 1) (record id_column { name = [] })) ≡ false }
    ensures longest { item_fits (item.Column (table_id 1) (record id_column { name = replicate 64 97 })) ≡ true }
    ensures long { item_fits (item.Column (table_id 1) (record mail_column { name = replicate 65 97 })) ≡ false }
    ensures root { item_fits (item.Index (table_id 1) 4294967296 by_mail) ≡ false }
    ensures longer_keys { item_fits (item.Index (table_id 1) 0 (record by_mail { key_most = 300 })) ≡ false }
{}
