//! Held changes are given up.

ghost use Rattle.std.specs.Prelude.{◌≡◌, ◌≤◌, ◌<◌, ◌&&◌, nat_lt, is_some};
ghost use Rattle.database_state.specs.State.{DatabaseState};
ghost use Rattle.laws_engine.specs.EngineState.{cleaned};
ghost use Rattle.laws_engine.specs.HoldsState.{HoldsState};
ghost use Rattle.stored_variants.specs.StoredVersions.{next_to_forget};
ghost use Rattle.engine_core.specs.Cleans.{AreUnneeded, CanGo, without_first, without_oldest_held, without_unneeded};

use crate::step_laws::changes_that_are_not_needed_may_go;
use engine_parts::Engine;
use table_versions::TableVersions;

/// Gives up held changes from the oldest on that no reader needs, at most so many, and tells how many. Want of memory does not stop
/// it: it is slower then. The state that the engine holds stays the very same. Where fewer are given up than asked for, all are that
/// may be.
pub fn clean(engine: &mut Engine, most: u32) -> u32
    ensures gone { engine.new ≡ without_oldest_held result engine.old }
    ensures few { result ≤ most }
    ensures unneeded { CanGo result engine.old }
    ensures all { result < most → engine.new ≡ cleaned engine.old }
    ensures holds { (state : DatabaseState) → HoldsState engine.old state → HoldsState engine.new state }
{
    changes_that_are_not_needed_may_go();
    let oldest = engine.sessions.oldest_begin();
    forget_first(&mut engine.tables, oldest, most)
}

/// Gives up all held changes before the oldest one that some reader needs. Want of memory does not stop it.
pub(crate) fn clean_all(engine: &mut Engine)
    ensures { engine.new ≡ cleaned engine.old }
{
    let oldest = engine.sessions.oldest_begin();
    forget_unneeded(&mut engine.tables, oldest);
}

// Forgets the oldest changes, at most so many, up to one that is needed.
fn forget_first(tables: &mut TableVersions, oldest: Option<u64>, most: u32) -> u32
    ensures gone { tables.new ≡ record tables.old { store = without_first result tables.old.store } }
    ensures few { result ≤ most }
    ensures unneeded { AreUnneeded oldest result tables.old.store.held }
    ensures all { result < most → without_first result tables.old.store ≡ without_unneeded oldest tables.old.store }
{
    let mut count = 0;
    let mut more = may_forget(tables, oldest, most);
    while more {
        tables.forget();
        count += 1;
        more = may_forget(tables, oldest, most - count);
    }
    count
}

// Whether one change more may be forgotten, where so many may be at most.
fn may_forget(tables: &TableVersions, oldest: Option<u64>, left: u32) -> bool
    ensures { result ≡ (nat_lt 0 left && is_some (next_to_forget oldest tables.now.store.held)) }
{
    left > 0 && has_unneeded(tables, oldest)
}

// Forgets all changes before one that is needed.
fn forget_unneeded(tables: &mut TableVersions, oldest: Option<u64>)
    ensures { tables.new ≡ record tables.old { store = without_unneeded oldest tables.old.store } }
{
    let mut more = has_unneeded(tables, oldest);
    while more {
        tables.forget();
        more = has_unneeded(tables, oldest);
    }
}

// Whether the oldest held change is not needed.
fn has_unneeded(tables: &TableVersions, oldest: Option<u64>) -> bool
    ensures { result ≡ is_some (next_to_forget oldest tables.now.store.held) }
{
    tables.next_to_forget(oldest).is_some()
}
