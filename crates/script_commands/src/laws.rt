//! Laws of commands: each is read back from its written form.
ghost use Rattle.script_commands.specs.WrittenLaws.{CatIsReadBack, CrowdIsReadBack, EmptyPutIsReadBack, FilesIsReadBack, JustItsWordsAreRead, LinkIsReadBack, ListIsReadBack, MergeIsReadBack, NodeIsReadBack, OthersAreRefused, PartIsReadBack, PlanIsReadBack, ProfileIsReadBack, PutIsReadBack, RemoveIsReadBack, SameIsReadBack, SendIsReadBack, ShowIsReadBack, SweepIsReadBack, TextIsReadBack, TreeIsReadBack, UnitsIsReadBack, WorkersIsReadBack};

/// Each command is read back from its words, written with one space between them. Names are valid names; numbers are in
/// decimal; places, targets and units are any words; a profile is its own word. A node whose units are asked for is
/// written with or without an at sign and a host, which is any bytes other than spaces. The text of `put` is everything
/// after the place and one space.
pub fn commands_read_back()
    ensures node { NodeIsReadBack }
    ensures put { PutIsReadBack }
    ensures empty_put { EmptyPutIsReadBack }
    ensures link { LinkIsReadBack }
    ensures remove { RemoveIsReadBack }
    ensures merge { MergeIsReadBack }
    ensures part { PartIsReadBack }
    ensures send { SendIsReadBack }
    ensures sweep { SweepIsReadBack }
    ensures files { FilesIsReadBack }
    ensures text { TextIsReadBack }
    ensures cat { CatIsReadBack }
    ensures show { ShowIsReadBack }
    ensures list { ListIsReadBack }
    ensures plan { PlanIsReadBack }
    ensures units { UnitsIsReadBack }
    ensures tree { TreeIsReadBack }
    ensures workers { WorkersIsReadBack }
    ensures profile { ProfileIsReadBack }
    ensures same { SameIsReadBack }
    ensures crowd { CrowdIsReadBack }

    // With any number of spaces, a line is read as a command exactly if it has the words of that command.
    ensures words { JustItsWordsAreRead }
    ensures others { OthersAreRefused }
{}
