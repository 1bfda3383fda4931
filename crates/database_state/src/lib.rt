//! The database state that all sessions share, as definitions: what a session sees, what one log entry does, which entry
//! may come next, and when two writes conflict. It has no code of its own.
#![tactic(auto)]
