//! Laws of exchanges.
ghost use Rattle.exchange_session.specs.{Events.{CutsForParts}, Standing.{OpeningsStand, QuietEnds, RepliesStand}};

/// What a side answers to an ask is a cut of the world: one for the ask that the peer made of all that it holds, of which it
/// told a part, at the side's own places in the range (`cuts`). So every list of messages, lost, repeated or cut off, is a
/// list of events, for which worlds converge.
///
/// The first message forgets no place (`begins`): at each, both hold the same, or a range that has it is told of or asked
/// for, or a piece brings it. Where versions tell edits apart, a reply forgets none either (`goes_on`), unless a print that
/// was told is one's own and the versions in that range are not. And once a message tells of nothing and asks for nothing,
/// whoever takes its pieces holds what its sender holds (`ends`).
pub fn session_laws()
    ensures cuts { CutsForParts }
    ensures begins { OpeningsStand }
    ensures goes_on { RepliesStand }
    ensures ends { QuietEnds }
{}
