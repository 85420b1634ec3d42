//! Laws of fields and checksums: what is written reads back, and stays apart from the rest.

ghost use Rattle.base_words.specs.FieldLaws.{ReadsBack, StaysApart, IsSummed};

/// A field that was written reads back.
pub fn fields_read_back()
    ensures { ReadsBack }
{}

/// A write leaves every field apart from it.
pub fn fields_stay_apart()
    ensures { StaysApart }
{}

/// A block written by [`crate::set_sum`] has the checksum of its first 255 words.
pub fn sums_are_right()
    ensures { IsSummed }
{}
