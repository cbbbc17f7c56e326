//! What holds of all readings.

ghost use Rattle.decoder.specs.OneReading.{OneReadingFacts, WrappedFacts};

/// Some bytes have at most one reading.
pub fn bytes_have_one_reading()
    ensures { OneReadingFacts }
{}

/// Bytes read at a wrapped address as they read at the address that it stands for.
#[inline]
pub fn wrapped_addresses_read_alike()
    ensures { WrappedFacts }
{}
