//! Laws of drop-ins and their folders: the contract of a function that does nothing.
ghost use Rattle.dropins.specs.{PrecedenceLaws.{LevelsGoFirst, SomethingIsTaken, TakenOnce, FoldersDecide}, CutLaws.{CutsAreDashedPrefixes, LongerCutsComeFirst}, FolderLaws.{OneFolder, FoldersAreNames, FoldersStandOnce}, FolderJoinLaws.{FoldersOfEach, FoldersJoin}, FolderOrderLaws.{FoldersOfInstances, FoldersOfOtherNames}, HostLaws.{DropInsAreTheFleets, HostsWithoutPlacesHaveTheseDropIns, HostsWithoutPlacesHaveTheseLinks, LinksAreTheFleets}, BorrowedLaws.{BorrowedAreDropIns}, OrderLaws.{OneOrder, DropInsAreFiles}, OverLaws.{NamesOrElseTypes}, TypeLaws.{TypesAreKinds, OneType, FoldersKeepTypes, WordsAreNoNames, NoNameHasATypesFolder}, TypeFolderLaws.{NamesGoFirst, TypesComeLast, MasksHideTypes, NamesAloneWithoutTypes}};

/// A level goes before the closeness of a folder. For each file name that anything stands for one thing is taken, and what
/// is visible in the folders decides it: in those of names, or in those of types where nothing of its file name stands in a
/// name's. A drop-in is a file that isn't empty, and its name ends in `.conf`; its order by file name says the order. A host
/// at whose places nothing is visible has the drop-ins and links that there are without a host: the fleet's alone.
pub fn drop_in_laws()
    ensures levels { LevelsGoFirst }
    ensures some { SomethingIsTaken }
    ensures once { TakenOnce }
    ensures decided { FoldersDecide }
    ensures either { NamesOrElseTypes }
    ensures first { NamesGoFirst }
    ensures last { TypesComeLast }
    ensures hidden { MasksHideTypes }
    ensures alone { NamesAloneWithoutTypes }
    ensures same { OneOrder }
    ensures files { DropInsAreFiles }
    ensures borrowed { BorrowedAreDropIns }
    ensures drop_ins { HostsWithoutPlacesHaveTheseDropIns }
    ensures links { HostsWithoutPlacesHaveTheseLinks }
    ensures fleets { DropInsAreTheFleets }
    ensures fleets_links { LinksAreTheFleets }
{}

/// Folders of names are names, each listed once. A name has its own, an instance then its template's, and then the same for
/// each cut of its prefix: its proper fronts that end in a dash, the longer ones first. Several names have the folders of
/// each. Types of names are words of kinds, which are no names, so no folder of a name is called as a type's.
pub fn folder_laws()
    ensures one { OneFolder }
    ensures instances { FoldersOfInstances }
    ensures others { FoldersOfOtherNames }
    ensures each { FoldersOfEach }
    ensures joined { FoldersJoin }
    ensures names { FoldersAreNames }
    ensures once { FoldersStandOnce }
    ensures cuts { CutsAreDashedPrefixes }
    ensures longer { LongerCutsComeFirst }
    ensures kinds { TypesAreKinds }
    ensures one_type { OneType }
    ensures types { FoldersKeepTypes }
    ensures words { WordsAreNoNames }
    ensures apart { NoNameHasATypesFolder }
{}
