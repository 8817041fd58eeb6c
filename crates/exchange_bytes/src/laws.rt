//! The laws of frames: the contracts of functions that do nothing.
ghost use Rattle.exchange_bytes.specs.{Laws.{AreFramesOneToOne}, Sizes.{AreShort}};

/// Frames are the same exactly where their bytes are, and no two byte strings are read alike.
pub fn frames_are_one_to_one()
    ensures law { AreFramesOneToOne }
{}

/// A frame's bytes are no more than its parts weigh, its hello takes, and a hundred; but for asks of more than 1,498 versions.
/// So those that `frames_of` makes are at most 900,100 bytes long, and the first as many more as its hello takes.
pub fn frames_are_short()
    ensures law { AreShort }
{}
