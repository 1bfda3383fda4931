//! What is known of the variants of a table's records once nothing is found of what is asked before the entries of its indexes.

ghost use Rattle.std.specs.Prelude.{◌≡◌, ℕ, true, List, None, Some};
ghost use Rattle.database_state.specs.Table.{schema_of};
ghost use Rattle.image_contents.specs.FoundEntries.{IsShown};
ghost use Rattle.image_contents.specs.LegalRules.{HasLegalRules};
ghost use Rattle.image_contents.specs.ReadVariants.{AreReadableVariants};
ghost use Rattle.image_contents.specs.declared.entries.variants.TableVariants.{TableVariants};
ghost use Rattle.image_findings.specs.LiveFindings.{is_sound_live};
ghost use Rattle.image_findings.specs.RowFindings.{row_finding};
ghost use Rattle.image_findings.specs.TableContents.{TableContents, contents_with_id};
ghost use Rattle.image_findings.specs.ValueFindings.{value_finding};
ghost use Rattle.live_part.specs.LiveBytes.{LivePart, standing};

use crate::rows::tables_without_broken_or_missing_values_have_readable_rows;
use image_findings::{
    rows_before_changes_without_missing_values_are_whole, rows_without_a_finding_are_sound,
};

/// All variants of the records of a table can be read beside the changes of a live part that are not undone, where nothing is found of
/// its long values, of the live part and of its rows.
#[tactic(none)]
pub fn variants_of_a_table_without_a_finding_are_readable()
    ensures { (v : TableVariants) (t : TableContents) (number : ℕ) (tables : List TableContents) (live : LivePart) → IsShown v t → HasLegalRules (schema_of t.table) → contents_with_id tables t.table.id ≡ Some t → v.versions.now ≡ standing live.held → value_finding number v.versions.now t ≡ None → is_sound_live number tables live ≡ true → row_finding number v.versions.now t ≡ None → AreReadableVariants v }
{
    tables_without_broken_or_missing_values_have_readable_rows();
    rows_before_changes_without_missing_values_are_whole();
    rows_without_a_finding_are_sound();
}
