//! Runs that go on behind an image of them as they go on without one.

ghost use Rattle.std.specs.Prelude.{◌≤◌, length};
ghost use Rattle.checkpoint.specs.declared.image.TheConstants.{MAX_PAGES};
ghost use Rattle.soft_recovery.specs.Replaying.{MayReplay};

use crate::entry_tables::{CHANGES, LAWFUL, RUN, SESSIONS, STEPS};
use crate::files::put;
use crate::next_entries::front;
use crate::outcomes::{Held, LIMIT, held_by};
use checkpoint::{Found, Image};
use engine_core::Engine;
use engine_image::from_image;
use image_writing::image;
use jet_base::Session;
use laws_engine::an_empty_engine_holds_the_empty_state;
use laws_images::lawful_entries_keep_states_sound;
use page_image::Page;
use soft_recovery::{EngineFault, recovered_engine, replay};
use std::alloc::Global;
use std::process::Abort;
use std::test::*;

/// An empty engine.
#[tactic(none)]
fn empty(alloc: Global) -> Engine
    ensures { MayReplay result }
{
    an_empty_engine_holds_the_empty_state();
    lawful_entries_keep_states_sound();
    Engine::new(alloc, LIMIT)
}

/// The engine behind the first entries of the run, so many.
fn engine_behind(rt: &impl Abort, alloc: Global, count: usize) -> Engine {
    let mut engine = empty(alloc);
    let bytes = front(rt, alloc, count);
    assert!(rt; replay(&mut engine, bytes.as_slice()).is_ok());
    engine
}

/// The image of an engine.
fn shown(rt: &impl Abort, alloc: Global, engine: &Engine) -> Image
    ensures { length result.pages.items ≤ MAX_PAGES }
{
    let image = image(alloc, engine).expect(rt, "memory");
    assert!(rt; image.pages.len() < 1_000);
    image
}

/// The engine of the image of an engine.
fn opened(rt: &impl Abort, alloc: Global, engine: &Engine) -> Engine {
    let image = shown(rt, alloc, engine);
    from_image(alloc, LIMIT, image)
        .ok()
        .expect(rt, "consistent")
}

/// What an engine holds, its sessions with their levels, and its held changes.
fn told(engine: &Engine) -> (Held, usize, u8, u8, usize) {
    (
        held_by(engine),
        engine.sessions().len(),
        engine.levels(Session(1)),
        engine.levels(Session(2)),
        engine.tables().held(),
    )
}

/// Whether two images have the same bytes.
fn is_same(image: &Image, other: &Image) -> bool {
    if image.pages.len() != other.pages.len() {
        return false;
    }
    for place in 0..image.pages.len() {
        if !has_same_page(&image.pages[place], &other.pages[place]) {
            return false;
        }
    }
    (image.number, image.catalog_root) == (other.number, other.catalog_root)
        && image.live.as_slice() == other.live.as_slice()
}

fn has_same_page(page: &Option<Page>, other: &Option<Page>) -> bool {
    match (page, other) {
        (Some(page), Some(other)) => page.has_same_bytes(other),
        (None, None) => true,
        _ => false,
    }
}

/// Compares the engine behind so many entries with that of its image.
fn compare(rt: &impl Abort, alloc: Global, count: usize) {
    let engine = engine_behind(rt, alloc, count);
    let opened = opened(rt, alloc, &engine);
    assert!(rt; told(&engine) == told(&opened), "{count}");
    let image = shown(rt, alloc, &engine);
    assert!(rt; is_same(&image, &shown(rt, alloc, &opened)), "{count}");
}

#[test]
fn the_engine_of_an_image_shows_that_image(rt: HostRuntime) {
    for count in 0..=RUN.len() {
        compare(&rt, rt.alloc(), count);
    }
}

/// How many entries are recovered of the image behind the first entries of the run and these bytes; none where the bytes are refused.
fn recovered_behind(rt: &impl Abort, alloc: Global, count: usize, bytes: &[u8]) -> Option<Held> {
    let engine = engine_behind(rt, alloc, count);
    let image = shown(rt, alloc, &engine);
    match recovered_engine(alloc, LIMIT, Found::Old(image), bytes) {
        Ok(engine) => Some(held_by(&engine)),
        Err(fault) => {
            assert!(rt; matches!(fault, EngineFault::LogFileCorrupt));
            None
        }
    }
}

/// Compares entries that may not come behind an image.
fn refuses(rt: &impl Abort, alloc: Global, table: &[(usize, &[u8])]) {
    for place in 0..table.len() {
        let (count, entry) = table[place];
        let told = recovered_behind(rt, alloc, count, entry);
        assert!(rt; told.is_none(), "{place}");
    }
}

#[test]
fn entries_that_may_not_come_are_refused_behind_an_image(rt: HostRuntime) {
    refuses(&rt, rt.alloc(), SESSIONS);
    refuses(&rt, rt.alloc(), STEPS);
    refuses(&rt, rt.alloc(), CHANGES);
}

#[test]
fn entries_that_may_come_are_made_behind_an_image(rt: HostRuntime) {
    for place in 0..LAWFUL.len() {
        let (count, entry) = LAWFUL[place];
        let told = recovered_behind(&rt, rt.alloc(), count, entry).map(|held| held.number);
        assert!(&rt; told == Some(count as u64 + 1), "{place}");
    }
}

/// The rest of the run behind so many entries.
fn rest(rt: &impl Abort, alloc: Global, count: usize) -> Vec<u8> {
    let mut bytes = Vec::new(alloc);
    for place in count..RUN.len() {
        put(rt, &mut bytes, RUN[place]);
    }
    bytes
}

// The first record keeps its name: its replace is not committed.
#[test]
fn the_run_goes_on_behind_each_image(rt: HostRuntime) {
    let wanted = Held {
        number: 22,
        tables: 2,
        bob: true,
        nameless: false,
    };
    for count in 0..=RUN.len() {
        let rest = rest(&rt, rt.alloc(), count);
        let told = recovered_behind(&rt, rt.alloc(), count, rest.as_slice());
        assert!(&rt; told == Some(wanted), "{count}");
    }
}
