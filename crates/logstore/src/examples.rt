// Worked examples of the log store's fitting rule.
ghost use Rattle.logstore.specs.Examples.{EmptyTextFits116Bytes, EmptyTextRefusedIn115Bytes};

/// A log of 116 bytes takes a record with an empty text, and one of 115 refuses it.
pub fn smallest_log_is_116_bytes()
    ensures fits { EmptyTextFits116Bytes }
    ensures refused { EmptyTextRefusedIn115Bytes }
{}
