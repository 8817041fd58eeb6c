//! Commands, and the reasons why they are refused.
ghost use Rattle.std.specs.Prelude.{◌≡◌, ℕ, List};
ghost use Rattle.script_commands.specs.declared.commands.Fault.TheVariants.{Refused, Memory};
ghost use Rattle.script_commands.specs.Faults.{fault_of_place, fault_of_host, fault_of_content, fault_of_name, fault_of_edit};

use crate::edit_counts::EditCount;
use edit_sums::ContentFault;
use load_places::{HostFault, PlaceFault};
use plain_values::Items;
use profiles::Profile;
use replica_store::EditFault;
use script_words::cut_word;
use std::alloc::{AllocError, AllocFailed};
use std::marker::Model;
use unit_name::{NameFault, UnitName};

/// A word: some bytes of a line.
#[derive(Drop)]
pub struct Word<'a> {
    bytes: &'a [u8],
}

impl<'a> Model for Word<'a> {
    ghost Value = { List ℕ };

    ghost view = { λ w. w.bytes.now };
}

impl<'a> Word<'a> {
    /// Makes a word of these bytes.
    pub fn new(bytes: &'a [u8]) -> Self
        ensures bytes { result ≡ bytes.now }
    {
        Word { bytes }
    }

    /// Borrows the bytes.
    pub fn as_slice(&self) -> &'a [u8]
        ensures bytes { result.now ≡ self.now }
    {
        self.bytes
    }
}

/// The remaining words of a line.
#[derive(Drop)]
pub struct Words<'a> {
    rest: &'a [u8],
}

impl<'a> Model for Words<'a> {
    ghost use Rattle.std.specs.Prelude.{ℕ, List};
    ghost use Rattle.script_words.specs.Words.{words_of};

    ghost Value = { List (List ℕ) };

    ghost view = { λ w. words_of w.rest.now };
}

impl<'a> Words<'a> {
    ghost use Rattle.std.specs.Prelude.{◌≡◌, [], ◌∷◌, MatchOption};
    ghost use Rattle.script_words.specs.Words.{words_of};

    /// Returns the words of these bytes.
    pub fn new(rest: &'a [u8]) -> Self
        ensures words { result ≡ words_of rest.now }
    {
        Words { rest }
    }

    /// Removes and returns the first word, if any.
    pub fn take_first(&mut self) -> Option<&'a [u8]>
        ensures first { MatchOption result ((self.old ≡ []) × (self.new ≡ []))
            (λ word. self.old ≡ word.now ∷ self.new) }
    {
        let (word, rest) = cut_word(self.rest)?;
        self.rest = rest;
        Some(word)
    }
}

/// What a command asks about the units of a node.
#[derive(Drop)]
pub enum Inquiry<'a> {
    /// The unit that a word names: its main name, status, names, drop-ins, values, dependencies in both directions, and
    /// notes.
    Unit(Word<'a>),
    /// What the unit that a word names pulls, over what it requires, has as requisite, binds to and wants: each unit
    /// once with its least distance, ordered by distance and then by name.
    List(Word<'a>),
    /// What stops, and then what starts and in which order, if the unit that a word names is to start while those that
    /// other words name are running.
    Plan(Word<'a>, Words<'a>),
    /// All units, each as if it were asked for by its main name.
    Units,
    /// The files and links that a unit manager finds there, and the units that it reads otherwise from them.
    Tree,
}

/// A command: what a line asks for.
#[derive(Drop)]
pub enum Command<'a> {
    /// Adds a node with a name and a writer number.
    Node {
        name: Word<'a>,
        writer: u32,
    },
    /// Writes a file at a place of a node.
    Put {
        node: Word<'a>,
        place: Word<'a>,
        text: Word<'a>,
    },
    /// Writes a link at a place of a node.
    Link {
        node: Word<'a>,
        place: Word<'a>,
        target: Word<'a>,
    },
    /// Removes what is visible at a place of a node.
    Remove {
        node: Word<'a>,
        place: Word<'a>,
    },
    /// Gives one node everything that it lacks of another.
    Merge {
        from: Word<'a>,
        to: Word<'a>,
    },
    /// Cuts a piece at one node for the ask of another, at these places or at all, and stores it under a name.
    Part {
        piece: Word<'a>,
        from: Word<'a>,
        to: Word<'a>,
        places: Words<'a>,
    },
    /// Gives a piece to a node.
    Send {
        piece: Word<'a>,
        node: Word<'a>,
    },
    /// Brings all nodes to one store: the first takes in what the others hold, then each takes in the first.
    Sweep,
    /// Lists everything that a node holds.
    Files {
        node: Word<'a>,
    },
    /// Prints the file or the link that is visible at a place of a node.
    Text {
        node: Word<'a>,
        place: Word<'a>,
    },
    /// Prints the files of a unit, as a node has them for a host or for the fleet. The host isn't parsed yet, here and
    /// below.
    Cat {
        node: Word<'a>,
        host: Option<Word<'a>>,
        unit: Word<'a>,
    },
    /// Asks about the units of a node, evaluated from its files.
    Ask {
        node: Word<'a>,
        host: Option<Word<'a>>,
        inquiry: Inquiry<'a>,
    },
    /// Sets the number of workers for later loads.
    Workers {
        count: u32,
    },
    /// Sets the profile by which later questions about units are answered.
    Profile {
        profile: Profile,
    },
    /// Asks whether two nodes hold the same.
    Same {
        left: Word<'a>,
        right: Word<'a>,
    },
    /// Runs a crowd of `seats` workers, each of which makes `edits` edits, on a copy of what a node holds.
    Crowd {
        node: Word<'a>,
        seats: u32,
        edits: EditCount,
    },
}

/// Why a line is refused. The nodes are unchanged then.
#[derive(Debug, Drop)]
pub enum LineRefusal {
    UnknownCommand,
    Arguments,
    UnknownNode,
    BadText,
    UnknownPiece,
    NodeTaken,
    WriterTaken,
    LineTooLong,
    /// The text before a path's first colon, or after a node's first at sign, isn't a host.
    HostName,
    Directory,
    Depth,
    Component,
    FileTooLarge,
    BadLink,
    VersionsSpent,
    Nothing,
    /// Nothing is visible at the place that is asked for.
    NotVisible,
    Length,
    Kind,
    EmptyPrefix,
    /// The index of the byte that isn't allowed in names.
    BadByte(usize),
    /// The unit whose file doesn't exist.
    NotFound(UnitName),
    /// The unit that is masked.
    Masked(UnitName),
    /// The unit that is bad.
    Bad(UnitName),
    /// A template was given where a unit is needed.
    Template,
    /// The number of workers isn't 1 to 64.
    Workers,
    /// More names must be loaded than a load may have.
    TooManyUnits,
    /// The unit to start refuses a manual start.
    ManualStart,
    /// A unit that must start, and its requisite that doesn't run.
    Requisite(UnitName, UnitName),
    /// Two units that must both start, and that conflict.
    Conflict(UnitName, UnitName),
    /// Units that are to start and wait for each other, each before the next.
    Cycle(Items<UnitName>),
    /// The number of a crowd's seats isn't 1 to 64.
    Seats,
}

/// Why a command wasn't executed.
#[derive(Debug, Drop)]
pub enum Fault {
    /// The command is refused.
    Refused(LineRefusal),
    /// Memory ran out.
    Memory,
}

impl From<LineRefusal> for Fault {
    ghost from_gives = { λ refusal fault. fault ≡ Refused refusal };

    fn from(refusal: LineRefusal) -> Fault {
        Fault::Refused(refusal)
    }
}

impl From<AllocError> for Fault {
    ghost from_gives = { λ _ fault. fault ≡ Memory };

    fn from(_refused: AllocError) -> Fault {
        Fault::Memory
    }
}

impl<T: Drop> From<AllocFailed<T>> for Fault {
    ghost use Rattle.std.specs.Prelude.{◌≡◌};
    ghost use Rattle.script_commands.specs.declared.commands.Fault.TheVariants.{Memory};

    ghost from_gives = { λ _ fault. fault ≡ Memory };

    fn from(_refused: AllocFailed<T>) -> Fault {
        Fault::Memory
    }
}

impl From<PlaceFault> for Fault {
    ghost from_gives = { λ refused fault. fault ≡ fault_of_place refused };

    fn from(refused: PlaceFault) -> Fault {
        match refused {
            PlaceFault::HostName => Fault::Refused(LineRefusal::HostName),
            PlaceFault::Directory => Fault::Refused(LineRefusal::Directory),
            PlaceFault::Depth => Fault::Refused(LineRefusal::Depth),
            PlaceFault::Component => Fault::Refused(LineRefusal::Component),
            PlaceFault::Memory => Fault::Memory,
        }
    }
}

impl From<HostFault> for Fault {
    ghost from_gives = { λ refused fault. fault ≡ fault_of_host refused };

    fn from(refused: HostFault) -> Fault {
        match refused {
            HostFault::HostName => Fault::Refused(LineRefusal::HostName),
            HostFault::Memory => Fault::Memory,
        }
    }
}

impl From<ContentFault> for Fault {
    ghost from_gives = { λ refused fault. fault ≡ fault_of_content refused };

    fn from(refused: ContentFault) -> Fault {
        match refused {
            ContentFault::FileTooLarge => Fault::Refused(LineRefusal::FileTooLarge),
            ContentFault::BadLink => Fault::Refused(LineRefusal::BadLink),
            ContentFault::Memory => Fault::Memory,
        }
    }
}

impl From<NameFault> for Fault {
    ghost from_gives = { λ refused fault. fault ≡ fault_of_name refused };

    fn from(refused: NameFault) -> Fault {
        match refused {
            NameFault::Length => Fault::Refused(LineRefusal::Length),
            NameFault::Kind => Fault::Refused(LineRefusal::Kind),
            NameFault::EmptyPrefix => Fault::Refused(LineRefusal::EmptyPrefix),
            NameFault::BadByte(place) => Fault::Refused(LineRefusal::BadByte(place)),
            NameFault::Memory => Fault::Memory,
        }
    }
}

impl From<EditFault> for Fault {
    ghost from_gives = { λ refused fault. fault ≡ fault_of_edit refused };

    fn from(refused: EditFault) -> Fault {
        match refused {
            EditFault::VersionsSpent => Fault::Refused(LineRefusal::VersionsSpent),
            EditFault::Nothing => Fault::Refused(LineRefusal::Nothing),
            EditFault::Memory => Fault::Memory,
        }
    }
}
