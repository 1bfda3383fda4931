//! The calls that move a cursor.

ghost use Rattle.std.specs.Prelude.{◌≡◌, ◌==◌, Option, Some, None, IsOk, find, option_map};
ghost use Rattle.jet_base.specs.declared.replies.Jet.TheVariants as jet;
ghost use Rattle.cursor_nav.specs.Navigation.{answer_of};
ghost use Rattle.session_local.specs.Local.{cursor_labelled};
ghost use Rattle.session_local.specs.Holding.{begun_with_cursors};
ghost use Rattle.session_local.specs.Navigating.{navigated_by, navigated_on, set_to, set_to_named};

use crate::begun::Begun;
use crate::local::Local;
use crate::open_cursor::{OpenCursor, primary_order};
use crate::request::Request;
use cursor_nav::{Moved, View};
use jet_base::{CursorId, IndexId, Jet, Name};

impl Local {
    /// Makes a call that moves the cursor with this label: SetCurrentIndex, Move, Seek, SetIndexRange or GotoBookmark,
    /// over a view of the tables. It answers nothing exactly where there is no such cursor, and it takes no memory.
    pub fn navigate<W: View>(&mut self, label: CursorId, view: &W, request: &Request) -> Option<Jet>
        ensures answer { result ≡ option_map (λ c. (navigated_by (W.entries view.now) (W.has_record view.now) c request.now).jet) (cursor_labelled self.old.state label.0) }
        ensures side { self.new ≡ record self.old { state = navigated_on self.old.state (cursor_labelled self.old.state label.0) (λ c. navigated_by (W.entries view.now) (W.has_record view.now) c request.now) } }
    {
        let Some(begun) = &mut self.begun else {
            return None;
        };
        begun.navigate(label, view, request)
    }
}

impl Begun {
    fn navigate<W: View>(&mut self, label: CursorId, view: &W, request: &Request) -> Option<Jet>
        ensures answer { result ≡ option_map (λ c. (navigated_by (W.entries view.now) (W.has_record view.now) c request.now).jet) (find (λ c. c.label == label.0) self.old.cursors) }
        ensures reply { self.new.reply ≡ self.old.reply }
        ensures temps { self.new.temps ≡ self.old.temps }
        ensures cursors { self.new.cursors ≡ (navigated_on (begun_with_cursors self.old.cursors) (find (λ c. c.label == label.0) self.old.cursors) (λ c. navigated_by (W.entries view.now) (W.has_record view.now) c request.now)).cursors }
    {
        match self.position(label) {
            Some(at) => {
                let cursor = &mut self.cursors[at];
                Some(cursor.navigate(view, request))
            }
            None => None,
        }
    }
}

impl OpenCursor {
    fn navigate<W: View>(&mut self, view: &W, request: &Request) -> Jet
        ensures answer { result ≡ (navigated_by (W.entries view.now) (W.has_record view.now) self.old request.now).jet }
        ensures cursor { self.new ≡ record self.old { cursor = (navigated_by (W.entries view.now) (W.has_record view.now) self.old request.now).cursor } }
    {
        match request {
            Request::SetCurrentIndex { index, .. } => self.set_index(view, index),
            Request::Move { way, .. } => jet_of(self.cursor.move_to(view, *way)),
            Request::Seek { by, .. } => jet_of(self.cursor.seek(view, *by)),
            Request::SetIndexRange {
                upper,
                inclusive,
                ..
            } => jet_of(self.cursor.set_range(view, *upper, *inclusive)),
            Request::GotoBookmark { bookmark, .. } => {
                jet_of(self.cursor.goto(view, bookmark.as_bytes()))
            }
            _ => Jet::Success,
        }
    }

    // The current index by its name, or the primary order.
    fn set_index<W: View>(&mut self, view: &W, name: &Option<Name>) -> Jet
        ensures answer { result ≡ (set_to_named (W.entries view.now) self.old name.now).jet }
        ensures cursor { self.new ≡ record self.old { cursor = (set_to_named (W.entries view.now) self.old name.now).cursor } }
    {
        match name {
            None => {
                let index = primary_order(&self.schema);
                self.set_to(view, index)
            }
            Some(name) => match self.schema.rule_named(name) {
                Some(rule) => {
                    let index = rule.id;
                    self.set_to(view, index)
                }
                None => Jet::IndexNotFound,
            },
        }
    }

    // The current index by its number.
    fn set_to<W: View>(&mut self, view: &W, index: IndexId) -> Jet
        ensures answer { result ≡ jet.Success }
        ensures cursor { self.new ≡ record self.old { cursor = (set_to (W.entries view.now) self.old.cursor index.0).cursor } }
    {
        jet_of(self.cursor.set_index(view, index))
    }
}

// The name that a cursor answered.
pub(crate) fn jet_of(answer: Result<Moved, Jet>) -> Jet
    ensures { (reply : Jet) → answer ≡ answer_of reply 0 → result ≡ reply }
{
    match answer {
        Ok(moved) => moved.jet,
        Err(refusal) => refusal,
    }
}
