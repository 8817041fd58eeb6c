//! Laws of paths, for all paths.
ghost use Rattle.load_path.specs.Paths.{AreTheirTexts};

/// The text of every path is read as that path, and every text that is read as a path is that path's text.
pub fn paths_are_their_texts()
    ensures law { AreTheirTexts }
{}
