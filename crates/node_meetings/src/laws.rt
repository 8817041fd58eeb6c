//! Laws of meetings.
ghost use Rattle.node_meetings.specs.Meeting.{MeetingsAreMutual};

/// Whom a node may not meet may not meet it either, where both said who they are and whom they know: so of two files of one
/// number that meet, or that a third knows, both ends are refused (`both`).
pub fn meeting_laws()
    ensures both { MeetingsAreMutual }
{}
