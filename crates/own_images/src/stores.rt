//! What a consistent image has of its tables is what a store keeps, and an engine that keeps it shows what the image shows. Each function
//! has an empty body, or calls laws, and its clauses are the law.

ghost use Rattle.std.specs.Prelude.{◌≡◌, map};
ghost use Rattle.std.specs.List.{AllByRecursion};
ghost use Rattle.image_findings.specs.CatalogFindings.{table_of};
ghost use Rattle.image_findings.specs.Findings.{IsConsistent, contents_in, live_of, tables_shown, told_in};
ghost use Rattle.image_findings.specs.ImageBytes.{IsOfBytes};
ghost use Rattle.image_findings.specs.Images.{ImageContents};
ghost use Rattle.own_images.specs.StoredContents.{HasStoredParts, HasStoredTrees, HaveTreeNodes, stored_of};
ghost use Rattle.stored_variants.specs.CountedValues.{AreCounted, HasNoValueBehind};
ghost use Rattle.stored_variants.specs.VersionsKept.{AreKept};
ghost use Rattle.stored_variants.specs.VersionsView.{stored_versions};

/// What the laws of consistent images say of one: no check finds anything; its tables, the indexes of its catalog, its long values, its
/// rows, its records and its held changes are as a store has them.
#[tactic(none)]
fn each_part_of_a_consistent_image_is_stored()
    ensures { (image : ImageContents) → IsOfBytes image → IsConsistent image → HasStoredParts image }
{
    image_findings::each_check_of_a_consistent_image_passes();
    image_findings::tables_of_a_consistent_image_are_sound();
    image_findings::records_of_a_consistent_image_rise();
    image_findings::indexes_of_a_sound_catalog_are_stored();
    image_findings::indexes_that_a_catalog_tells_have_their_trees();
    image_findings::indexes_of_a_sound_catalog_have_their_own_rules();
    image_findings::values_without_a_finding_are_whole();
    image_findings::rows_of_a_consistent_image_are_sound();
    image_findings::rows_of_a_consistent_image_are_stored();
    image_findings::newest_records_of_a_consistent_image_are_of_their_rows();
    image_findings::held_changes_of_a_consistent_image_are_sound();
}

/// The tables of a consistent image, their trees and its held changes are kept as a store keeps them: a node stands exactly where a
/// variant of a record is one, the entries of each index are those of all variants, each long value has its references, and is of an entry
/// that was made.
#[tactic(none)]
pub fn the_tables_of_a_consistent_image_are_a_store()
    ensures kept { (image : ImageContents) → IsOfBytes image → IsConsistent image → AreKept (map table_of (told_in image).tables) (map stored_of (contents_in image)) (live_of image).held }
    ensures counts { (image : ImageContents) → IsOfBytes image → IsConsistent image → AreCounted (map stored_of (contents_in image)) (live_of image).held }
    ensures entries { (image : ImageContents) → IsConsistent image → HasNoValueBehind image.number (map stored_of (contents_in image)) }
{
    each_part_of_a_consistent_image_is_stored();
    image_findings::each_check_of_a_consistent_image_passes();
    image_findings::values_without_a_finding_are_whole();
}

/// And its trees have what a store asks of them, where their nodes rise and have keys of bytes.
#[tactic(none)]
pub fn the_trees_of_a_consistent_image_are_of_a_store()
    ensures { (image : ImageContents) → IsOfBytes image → AllByRecursion HaveTreeNodes (contents_in image) → IsConsistent image → AllByRecursion HasStoredTrees (contents_in image) }
{
    each_part_of_a_consistent_image_is_stored();
}

/// What such a store shows is what the image shows.
#[tactic(none)]
pub fn what_a_store_of_a_consistent_image_shows()
    ensures { (image : ImageContents) → IsConsistent image → (stored_versions image.number (record { greatest_table = (told_in image).greatest; tables = map table_of (told_in image).tables }) (map stored_of (contents_in image)) (live_of image).held).store ≡ tables_shown (contents_in image) (live_of image).held }
{
    image_findings::tables_of_a_consistent_image_are_sound();
}
