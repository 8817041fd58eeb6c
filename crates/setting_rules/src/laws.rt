//! Laws of assignments, names and kinds: the contract of a function that does nothing.
ghost use Rattle.setting_rules.specs.{EnteredLaws.{KeysJoin, OneKeyEnters}, FamilyLaws.{ConditionsEmptyAll, AssertionsEmptyAll}, JoinLaws.{ListsJoin}, OrderLaws.{NamesAscend, NamesStay}, ProfileLaws.{ManagersKeepPaths, FilesReadThemAsAnyOther}, ResetLaws.{KeepsAllValues, ResetsForget, OtherKeysChangeNothing, PassedOverChangesNothing, EmptyDependenciesChangeNothing, SettingsShowValues}, SwitchLaws.{LastBooleanStays, LastBooleanDecides, NothingRefusedUnsaid}, TemplateLaws.{InstancesAreTaken, PrefixesAreTaken, OtherNamesStay}, WordLaws.{PlainWordsStay, InversesAreUndone, WordsSetKinds}};

/// A key has the values since the last assignment that empties it, its own or one of its family; assignments to other keys,
/// and those that don't count, change none. Of several files, so do the last file that empties it and those after it. The
/// last valid boolean is the only value of `RefuseManualStart`. The names of a dependency list ascend, and are those that
/// the words give; a template means its instance with the unit's own instance, or else its prefix. All this holds by each
/// profile. A manager keeps all values of `RequiresMountsFor` and `Sockets` that aren't empty; files alone read these two
/// keys, `DefaultDependencies` and `Upholds` like any other.
pub fn setting_laws()
    ensures kept { KeepsAllValues }
    ensures forgotten { ResetsForget }
    ensures others { OtherKeysChangeNothing }
    ensures passed_over { PassedOverChangesNothing }
    ensures dependencies { EmptyDependenciesChangeNothing }
    ensures shown { SettingsShowValues }
    ensures conditions { ConditionsEmptyAll }
    ensures assertions { AssertionsEmptyAll }
    ensures files { ListsJoin }
    ensures keys { KeysJoin }
    ensures key { OneKeyEnters }
    ensures alone { LastBooleanStays }
    ensures last { LastBooleanDecides }
    ensures unsaid { NothingRefusedUnsaid }
    ensures plain { PlainWordsStay }
    ensures ascend { NamesAscend }
    ensures stay { NamesStay }
    ensures instances { InstancesAreTaken }
    ensures prefixes { PrefixesAreTaken }
    ensures no_templates { OtherNamesStay }
    ensures inverses { InversesAreUndone }
    ensures words { WordsSetKinds }
    ensures paths { ManagersKeepPaths }
    ensures any_other { FilesReadThemAsAnyOther }
{}
