//! A tree and a plain list of its nodes.

ghost use Rattle.std.specs.Prelude.{◌<◌, IfSome};
ghost use Rattle.btree_inplace.specs.Trees.{IsTree};

use btree_inplace::{Tree, no_page_is_empty, nodes_fit_their_space};
use page_space::Space;
use std::alloc::Global;
use std::process::Abort;

/// How many keys a tree of these tests may have.
const COUNT: usize = 1_000;

#[test]
fn an_empty_tree_has_no_node(rt: HostRuntime) {
    let mut space = Space::new(rt.alloc());
    let tree = Tree::new(&mut space).expect(&rt, "memory");
    nodes_fit_their_space();
    no_page_is_empty();
    assert!(&rt; space.len() == 1);
    assert!(&rt; tree.get(&space, b"key").is_none());
    assert!(&rt; tree.first(&space).is_none() && tree.last(&space).is_none());
}

#[test]
fn no_node_lies_beside_a_key_in_an_empty_tree(rt: HostRuntime) {
    let mut space = Space::new(rt.alloc());
    let tree = Tree::new(&mut space).expect(&rt, "memory");
    assert!(&rt; tree.at_or_after(&space, b"").is_none());
    assert!(&rt; tree.at_or_before(&space, b"key").is_none());
    assert!(&rt; tree.after(&space, b"").is_none() && tree.before(&space, b"key").is_none());
}

/// What the plain list has under a number: data of so many equal bytes.
#[derive(Clone, Copy)]
struct Kept {
    len: usize,
    byte: u8,
}

/// A number's key: four bytes that keep its order, and up to 100 more.
fn key_of(alloc: Global, number: usize) -> Vec<u8> {
    let mut key = Vec::new(alloc);
    let _ = key.extend_from_slice(&((number % 65_536) as u32).to_be_bytes());
    let _ = key.resize(4 + number % 11 * 10, b'k');
    key
}

fn data_of(alloc: Global, kept: Kept) -> Vec<u8> {
    let mut data = Vec::new(alloc);
    let _ = data.resize(kept.len, kept.byte);
    data
}

/// Puts a node in, unless the key is there, by one of the two calls, and says whether it did.
fn put(space: &mut Space, tree: &mut Tree, key: &[u8], data: &[u8], extent: usize) -> bool
    requires { IsTree space.old tree.old }
    ensures { IsTree space.new tree.new }
{
    if key.len() > 755 || data.len() > extent || extent > 1_200 {
        return false;
    }
    if extent % 2 == 1 {
        return matches!(tree.insert_if_absent(space, key, data, extent), Ok(None));
    }
    if tree.get(space, key).is_some() {
        return false;
    }
    tree.insert(space, key, data, extent).is_ok()
}

/// Whether a key that is there is not put again, and the bytes kept for its data are told.
fn stays(space: &mut Space, tree: &mut Tree, key: &[u8]) -> bool
    requires { IsTree space.old tree.old }
    ensures { IsTree space.new tree.new }
{
    if key.len() > 755 {
        return false;
    }
    let kept = tree.extent(space, key);
    match tree.insert_if_absent(space, key, b"", 0) {
        Ok(there) => there == kept,
        Err(_) => false,
    }
}

/// Gives a key that is there another extent and other data, and says whether it did.
fn rewrite(space: &mut Space, tree: &mut Tree, key: &[u8], data: &[u8], extent: usize) -> bool
    requires { IsTree space.old tree.old }
    ensures { IsTree space.new tree.new }
{
    if key.len() > 755 || data.len() > extent || extent > 1_200 {
        return false;
    }
    match tree.get(space, key) {
        Some(old) if old.len() <= extent => {}
        _ => return false,
    }
    match tree.widen(space, key, extent) {
        Ok(()) => {}
        Err(_) => return false,
    }
    tree.replace(space, key, data);
    true
}

/// Takes a key out, if it is there, and says whether it did.
fn take(space: &mut Space, tree: &mut Tree, key: &[u8]) -> bool
    requires { IsTree space.old tree.old }
    ensures { IsTree space.new tree.new }
{
    if tree.get(space, key).is_none() {
        return false;
    }
    tree.remove(space, key);
    true
}

/// Changes one number, in the tree and in the list.
fn change(
    alloc: Global,
    space: &mut Space,
    tree: &mut Tree,
    list: &mut [Option<Kept>; 1_000],
    number: usize,
    turn: u32,
)
    requires tree { IsTree space.old tree.old }
    requires number { number < 1000 }
    ensures { IsTree space.new tree.new }
{
    let key = key_of(alloc, number);
    let extent = (turn % 700) as usize;
    let kept = Kept {
        len: extent / 2,
        byte: (turn % 256) as u8,
    };
    let data = data_of(alloc, kept);
    if list[number].is_none() {
        if put(space, tree, &key, &data, extent) {
            list[number] = Some(kept);
        }
    } else if turn % 3 == 0 {
        if take(space, tree, &key) {
            list[number] = None;
        }
    } else if stays(space, tree, &key) && rewrite(space, tree, &key, &data, extent) {
        list[number] = Some(kept);
    }
}

/// Whether a node was found, with this key and data.
fn is_node(found: Option<(&[u8], &[u8])>, key: &[u8], data: &[u8]) -> bool {
    match found {
        Some((found_key, found_data)) => found_key == key && found_data == data,
        None => false,
    }
}

/// Whether the tree's first node from a key on is this one, and its last node up to this one's key.
fn is_next(space: &Space, tree: &Tree, from: &[u8], key: &[u8], data: &[u8]) -> bool
    requires { IsTree space.now tree.now }
{
    is_node(tree.at_or_after(space, from), key, data)
        && is_node(tree.at_or_before(space, key), key, data)
}

/// Whether the tree tells this data of the key, and the nodes beside it, together as each by itself.
fn is_beside(space: &Space, tree: &Tree, key: &[u8], data: &[u8]) -> bool
    requires { IsTree space.now tree.now }
{
    let (found, next) = tree.get_and_after(space, key);
    let (again, previous) = tree.get_and_before(space, key);
    found == Some(data)
        && again == Some(data)
        && next == tree.after(space, key)
        && previous == tree.before(space, key)
}

/// Walks the tree and the list side by side, both ways.
fn check_same(
    rt: &impl Abort,
    alloc: Global,
    space: &Space,
    tree: &Tree,
    list: &[Option<Kept>; 1_000],
)
    requires { IsTree space.now tree.now }
{
    let mut past = Vec::new(alloc);
    for (number, kept) in list.iter().enumerate() {
        let key = key_of(alloc, number);
        if let Some(kept) = kept {
            let data = data_of(alloc, *kept);
            assert!(rt; is_next(space, tree, &past, &key, &data), "{number}");
            assert!(rt; is_beside(space, tree, &key, &data), "{number}");
            past = key;
            let _ = past.push(0);
        } else {
            assert!(rt; tree.get(space, &key).is_none(), "{number}");
        }
    }
    assert!(rt; tree.at_or_after(space, &past).is_none());
}

fn pages_taken(space: &Space) -> usize {
    (0..space.len() as u32)
        .filter(|page| space.is_taken(*page))
        .count()
}

#[test]
fn a_tree_is_its_list(rt: HostRuntime) {
    let mut space = Space::new(rt.alloc());
    let mut tree = Tree::new(&mut space).expect(&rt, "memory");
    let root = tree.root();
    let mut list = [None; 1_000];
    let mut random = 1u32;
    for turn in 0..10_000u32 {
        random = random.wrapping_mul(1_664_525).wrapping_add(1_013_904_223);
        let number = (random / 256) as usize % COUNT;
        change(rt.alloc(), &mut space, &mut tree, &mut list, number, turn);
        if turn % 100 == 99 {
            check_same(&rt, rt.alloc(), &space, &tree, &list);
        }
    }
    assert!(&rt; pages_taken(&space) > 50);
    for number in 0..COUNT {
        // 7 and the count have no common factor, so this goes over all numbers.
        let number = number * 7 % COUNT;
        let key = key_of(rt.alloc(), number);
        assert!(&rt; take(&mut space, &mut tree, &key) == list[number].is_some());
    }
    assert!(&rt; pages_taken(&space) == 1);
    assert!(&rt; space.is_taken(root) && tree.root() == root);
    assert!(&rt; tree.first(&space).is_none());
}

/// A tree of one page that is found again by it, `None` where it has more pages.
fn found_again(space: &Space, tree: &Tree) -> Option<Tree>
    requires { IsTree space.now tree.now }
    ensures { IfSome result (λ again. IsTree space.now again) }
{
    if tree.page_count(space) == 1 {
        Some(Tree::at(tree.root(), 0))
    } else {
        None
    }
}

#[test]
fn a_tree_is_found_again(rt: HostRuntime) {
    let mut space = Space::new(rt.alloc());
    let mut tree = Tree::new(&mut space).expect(&rt, "memory");
    assert!(&rt; put(&mut space, &mut tree, b"key", b"data", 4));
    match found_again(&space, &tree) {
        Some(again) => assert!(&rt; again.get(&space, b"key") == Some(b"data".as_slice())),
        None => assert!(&rt; false, "one node has one page"),
    }
}

/// Puts a node in, of which a page has room for three, and says whether it did.
fn put_wide(alloc: Global, space: &mut Space, tree: &mut Tree, number: usize) -> bool
    requires { IsTree space.old tree.old }
    ensures { IsTree space.new tree.new }
{
    let key = key_of(alloc, number);
    put(space, tree, &key, b"data", 1_200)
}

#[test]
fn pages_and_nodes_are_counted(rt: HostRuntime) {
    let mut space = Space::new(rt.alloc());
    let mut tree = Tree::new(&mut space).expect(&rt, "memory");
    assert!(&rt; tree.page_count(&space) == 1 && tree.node_count(&space) == 0);
    for number in 0..12 {
        assert!(&rt; put_wide(rt.alloc(), &mut space, &mut tree, number));
    }
    assert!(&rt; tree.node_count(&space) == 12);
    assert!(&rt; tree.page_count(&space) > 4);
    assert!(&rt; tree.page_count(&space) == pages_taken(&space));
}
