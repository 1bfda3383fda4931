//! Whether the levels of open changes do not fall.

ghost use Rattle.std.specs.Prelude.{◌≡◌};
ghost use Rattle.database_state.specs.State.{is_open};
ghost use Rattle.image_findings.specs.LiveFindings.{levels_rise};
ghost use Rattle.image_live.specs.Orders.{ArePlaced, all_pairs};
ghost use Rattle.version_store.specs.Items.{state_of};

use version_store::{Status, Versions};

/// One more than the greatest label of a session.
const LABELS: usize = 100;

/// Whether the levels of each session's open changes do not fall.
pub(crate) fn all_levels_rise(changes: &Versions) -> bool
    requires { ArePlaced changes.now }
    ensures { result ≡ all_pairs levels_rise changes.now }
{
    // By the session's label the level of its last open change.
    let mut levels = [0; LABELS];
    for place in 0..changes.len() {
        let change = changes.change_at(place);
        if !is_open(change.status) {
            continue;
        }
        let label = change.session.0 as usize;
        if change.level < levels[label] {
            return false;
        }
        levels[label] = change.level;
    }
    true
}

/// Whether a change is of an open transaction.
fn is_open(status: Status) -> bool
    ensures { result ≡ is_open (state_of status) }
{
    matches!(status, Status::Uncommitted)
}
