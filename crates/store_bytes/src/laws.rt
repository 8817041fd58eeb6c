//! The laws of the bytes: the contract of a function that does nothing.
ghost use Rattle.store_bytes.specs.Bytes.{AreOneToOne};

/// Stores, pieces and digests are the same exactly where their bytes are, and no two byte strings are read alike.
pub fn bytes_are_one_to_one()
    ensures law { AreOneToOne }
{}
