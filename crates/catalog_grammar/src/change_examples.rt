//! Worked examples: a catalog of two tables has nodes before and after a step of each kind. Each function has an empty body.

ghost use Rattle.std.specs.Prelude.{◌≡◌, true, codes};
ghost use Rattle.jet_base.specs.Ids.{column_id, index_id, table_id};
ghost use Rattle.index_derive.specs.declared.schema_calls.SchemaStep.TheVariants as step;
ghost use Rattle.jet_catalog.specs.Catalog.{catalog_after};
ghost use Rattle.catalog_grammar.specs.CatalogSteps.{has_nodes};
ghost use Rattle.catalog_grammar.specs.StepSamples.{next_column, next_index, two_roots, two_tables};

/// Whatever comes or goes, the nodes of what is left can be written.
pub fn nodes_after_each_step()
    ensures before { has_nodes two_roots two_tables ≡ true }
    ensures table { has_nodes two_roots (catalog_after two_tables (step.CreateTable (table_id 301) (codes "t"))) ≡ true }
    ensures no_table { has_nodes two_roots (catalog_after two_tables (step.DeleteTable (table_id 258))) ≡ true }
    ensures column { has_nodes two_roots (catalog_after two_tables (step.AddColumn (table_id 258) next_column)) ≡ true }
    ensures no_column { has_nodes two_roots (catalog_after two_tables (step.DeleteColumn (table_id 258) (column_id 1))) ≡ true }
    ensures index { has_nodes two_roots (catalog_after two_tables (step.CreateIndex (table_id 258) next_index)) ≡ true }
    ensures no_index { has_nodes two_roots (catalog_after two_tables (step.DeleteIndex (table_id 258) (index_id 1))) ≡ true }
{}
