//! Laws of the definitions, each stated by a function with an empty body.

ghost use Rattle.kd_values.specs.Laws.{PrintedReads, TextFieldReads};

/// What kd_names prints for a value is read back as this value. Of a text only what stands between
/// the quotation marks is read, and it must not need a backslash.
pub fn printed_reads()
    ensures { PrintedReads }
{}

/// A text gives the same value for one field of text and for an option of text.
pub fn text_field_reads()
    ensures { TextFieldReads }
{}
