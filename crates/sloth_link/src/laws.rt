//! Laws of sections that lie in extents.
ghost use Rattle.sloth_link.specs.Room.{RoomFollows};

/// Sections that lie each in its own extent of a run are apart and inside.
pub fn room_follows()
    ensures { RoomFollows }
{}
