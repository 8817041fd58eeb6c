//! The law of fields: the contract of a function that does nothing.
ghost use Rattle.byte_fields.specs.Laws.{AreTheirBytes};

/// A number or string that is written is read back, whatever follows it; and what is read as one is its bytes.
pub fn fields_read_back()
    ensures law { AreTheirBytes }
{}
