//! Laws of names, escapes and specifiers: the contract of a function that does nothing.
ghost use Rattle.unit_name.specs.{NameLaws.{NamesAreMade, PartsMakeNames, PartsOfNamesFit, NamesAreTheirParts, TemplatesKeepParts, InstancesHaveTheTemplate, PrefixesMayBeCut}, EscapeLaws.{EscapesAreUndone, EscapesDiffer, EscapesAreSpellings, EscapesAreInstances}, SpecifierLaws.{PlainTextsStay, PlainStartsStay, PairsAreReplaced, LastPercentStays}};

/// A name is exactly a stem, a dot and the suffix of a kind, and its parts together give the name. A template has the prefix
/// and kind of its instances, which are exactly the names that have it as their template. Unescaping gives back what was
/// escaped, which is valid in a name. Text without specifiers stays; each specifier is replaced independently.
pub fn name_laws()
    ensures made { NamesAreMade }
    ensures names { PartsMakeNames }
    ensures fit { PartsOfNamesFit }
    ensures parts { NamesAreTheirParts }
    ensures cut { PrefixesMayBeCut }
    ensures templates { TemplatesKeepParts }
    ensures instances { InstancesHaveTheTemplate }
    ensures undone { EscapesAreUndone }
    ensures differ { EscapesDiffer }
    ensures spellings { EscapesAreSpellings }
    ensures escaped { EscapesAreInstances }
    ensures texts { PlainTextsStay }
    ensures starts { PlainStartsStay }
    ensures pairs { PairsAreReplaced }
    ensures last { LastPercentStays }
{}
