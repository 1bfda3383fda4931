//! Moves of a temporary table.

ghost use Rattle.std.specs.Prelude.{◌≡◌};
ghost use Rattle.std.specs.Option.{option_map};
ghost use Rattle.btree_inplace.specs.Trees.{IsTree, nodes_of};
ghost use Rattle.temp_table.specs.TempRows.{is_on, moved, moved_place, next_place, on_last_or, on_or, previous_place};
ghost use Rattle.temp_table.specs.Held.{IsWithin, next_node, node_towards, previous_node};

use crate::keys::set;
use crate::place::TempPlace;
use crate::table::TempTable;
use btree_inplace::{Tree, nodes_of_a_tree_rise};
use jet_base::Way;
use page_space::Space;

impl TempTable {
    /// Goes to the first or the last row, or to the one behind or before the place, and says whether there is one. Where there
    /// is none, the place is after all rows for `Next` and `Last`, and before them for `Previous` and `First`. It takes no memory.
    #[tactic(none)]
    pub fn move_to(&mut self, way: Way) -> bool
        ensures place { self.new ≡ moved self.old way }
        ensures found { result ≡ is_on self.new.place }
    {
        nodes_of_a_tree_rise();
        let place = moved_place(self.count, self.place, way);
        match node_towards(
            &self.tree,
            &self.space,
            self.key.as_slice(),
            self.place,
            way,
        ) {
            Some((key, _)) => set(&mut self.key, key),
            None => {}
        }
        self.place = place;
        self.is_on()
    }
}

/// The place after a move among so many rows.
fn moved_place(count: u64, place: TempPlace, way: Way) -> TempPlace
    requires { IsWithin count place }
    ensures { result ≡ moved_place count place way }
{
    match way {
        Way::First => on_or(count, 0, TempPlace::Before),
        Way::Last => on_last_or(count, TempPlace::After),
        Way::Next => next_place(count, place),
        Way::Previous => previous_place(count, place),
    }
}

fn next_place(count: u64, place: TempPlace) -> TempPlace
    requires { IsWithin count place }
    ensures { result ≡ next_place count place }
{
    match place {
        TempPlace::Before => on_or(count, 0, TempPlace::After),
        TempPlace::After => TempPlace::After,
        TempPlace::On(at) => on_or(count, at + 1, TempPlace::After),
    }
}

fn previous_place(count: u64, place: TempPlace) -> TempPlace
    ensures { result ≡ previous_place count place }
{
    match place {
        TempPlace::Before => TempPlace::Before,
        TempPlace::After => on_last_or(count, TempPlace::Before),
        TempPlace::On(at) => on_last_or(at, TempPlace::Before),
    }
}

/// On the row with so many before it, or else at another place.
fn on_or(count: u64, at: u64, otherwise: TempPlace) -> TempPlace
    ensures { result ≡ on_or count at otherwise }
{
    if at < count {
        TempPlace::On(at)
    } else {
        otherwise
    }
}

/// On the last of so many rows, or else at another place.
fn on_last_or(count: u64, otherwise: TempPlace) -> TempPlace
    ensures { result ≡ on_last_or count otherwise }
{
    if count == 0 {
        otherwise
    } else {
        TempPlace::On(count - 1)
    }
}

/// The key and the row of the node that a move goes to, if there is one.
fn node_towards<'a>(
    tree: &Tree,
    space: &'a Space,
    key: &[u8],
    place: TempPlace,
    way: Way,
) -> Option<(&'a [u8], &'a [u8])>
    requires { IsTree space.now tree.now }
    ensures { option_map (λ found. (found.0.now, found.1.now)) result ≡ node_towards (nodes_of space.now tree.now) key.now place way }
{
    match way {
        Way::First => tree.first(space),
        Way::Last => tree.last(space),
        Way::Next => next_node(tree, space, key, place),
        Way::Previous => previous_node(tree, space, key, place),
    }
}

fn next_node<'a>(
    tree: &Tree,
    space: &'a Space,
    key: &[u8],
    place: TempPlace,
) -> Option<(&'a [u8], &'a [u8])>
    requires { IsTree space.now tree.now }
    ensures { option_map (λ found. (found.0.now, found.1.now)) result ≡ next_node (nodes_of space.now tree.now) key.now place }
{
    match place {
        TempPlace::Before => tree.first(space),
        TempPlace::After => None,
        TempPlace::On(_) => tree.after(space, key),
    }
}

fn previous_node<'a>(
    tree: &Tree,
    space: &'a Space,
    key: &[u8],
    place: TempPlace,
) -> Option<(&'a [u8], &'a [u8])>
    requires { IsTree space.now tree.now }
    ensures { option_map (λ found. (found.0.now, found.1.now)) result ≡ previous_node (nodes_of space.now tree.now) key.now place }
{
    match place {
        TempPlace::Before => None,
        TempPlace::After => tree.last(space),
        TempPlace::On(_) => tree.before(space, key),
    }
}
