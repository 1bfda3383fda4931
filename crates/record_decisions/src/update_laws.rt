//! Laws of updates: what the engine holds tells what the definitions ask of a state that it holds. The functions do nothing.

ghost use Rattle.record_decisions.specs.Updating.{HasShortBookmarks, TellsKeys, TellsSchemas};

use laws_versions::every_record_seen_has_its_bookmark;
use table_versions::unique_keys_are_asked_as_of_the_state;

/// A cursor's schema is that of a table that the engine has.
pub(crate) fn schemas_are_those_of_tables()
    ensures { TellsSchemas }
{}

/// The keys of a record meet the same conflicts in the unique indexes, and are taken by the same records.
pub(crate) fn unique_keys_are_refused_alike()
    ensures { TellsKeys }
{
    unique_keys_are_asked_as_of_the_state();
}

/// An update puts under a bookmark of 255 bytes at most.
pub(crate) fn bookmarks_are_short()
    ensures { HasShortBookmarks }
{
    every_record_seen_has_its_bookmark();
}
