//! The sessions as readers of held changes.

ghost use Rattle.std.specs.Prelude.{◌≡◌};
ghost use Rattle.version_cleanup.specs.Cleaning.{reader_in};

use crate::sessions::Sessions;
use jet_base::Session;
use version_store::Reader;

impl Sessions {
    /// The session as a reader of held changes.
    pub fn reader(&self, session: Session) -> Reader
        ensures { result ≡ reader_in session.0 self.now }
    {
        let begin = match self.transaction(session) {
            Some(transaction) => Some(transaction.begin),
            None => None,
        };
        Reader { session, begin }
    }
}
