//! The first key of which a span does not follow the one before it.

ghost use Rattle.std.specs.Prelude.{◌≡◌, ℕ, ◌≤◌, ◌&&◌, bytes_eq, length, not, option_copied, slice_get, Some};
ghost use Rattle.image_live.specs.KeySpans.{Span, first_shared, follows};

use crate::apart::are_apart;
use crate::keys::spans::KeySpan;
use version_cleanup::Sessions;
use version_store::Versions;

/// The first key of which a span does not follow the one before it, of spans in order: so it is the least that is not one record's alone.
pub(crate) fn first_shared<'s>(
    sessions: &Sessions,
    versions: &Versions,
    spans: &'s [KeySpan<'_>],
) -> Option<&'s [u8]>
    requires { (place : ℕ) (s : Span) → slice_get spans.now place ≡ Some s → s.begins ≤ length versions.now }
    ensures { option_copied result ≡ first_shared sessions.now versions.now spans.now }
{
    let mut next = 1;
    while next < spans.len() {
        let span = &spans[next];
        if is_shared(sessions, versions, &spans[next - 1], span) {
            return Some(span.key.as_slice());
        }
        next += 1;
    }
    None
}

/// Whether two spans are of one key, and the later does not follow the earlier.
fn is_shared(
    sessions: &Sessions,
    versions: &Versions,
    span: &KeySpan<'_>,
    next: &KeySpan<'_>,
) -> bool
    requires { next.now.begins ≤ length versions.now }
    ensures { result ≡ (bytes_eq span.now.key next.now.key && not (follows sessions.now versions.now span.now next.now)) }
{
    span.key == next.key && !follows(sessions, versions, span, next)
}

/// Whether a span ends before the next begins: at the change that this begins behind, or at an earlier one that is apart from it.
fn follows(sessions: &Sessions, versions: &Versions, span: &KeySpan<'_>, next: &KeySpan<'_>) -> bool
    requires { next.now.begins ≤ length versions.now }
    ensures { result ≡ follows sessions.now versions.now span.now next.now }
{
    if span.ends >= next.begins {
        return false;
    }
    let brought = next.begins - 1;
    if span.ends == brought {
        return true;
    }
    are_apart(
        sessions,
        versions.change_at(span.ends),
        versions.change_at(brought),
    )
}
