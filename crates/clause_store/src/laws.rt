//! Laws of passes that meet. Each function does nothing: its contract is the law.
ghost use Rattle.clause_store.specs.Laws.{SyncTwice, MeetingKeeps};

/// If a pass meets all others in turn, and then all again, and no calls are made meanwhile, then
/// all passes have seen the same history.
pub fn sync_twice()
    ensures { SyncTwice }
{}

/// While a pass meets others in turn, no calls are made. Afterwards each of the others is fair, and
/// the pass is fair if it was before.
pub fn meeting_keeps()
    ensures { MeetingKeeps }
{}
