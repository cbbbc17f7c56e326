//! Data in place of what stood for it.

ghost use Rattle.std.specs.Prelude.{◌≡◌, length};
ghost use Rattle.code_assembler.specs.Filling as spec;

/// Puts a byte at an offset, if there is one.
fn put_byte(bytes: &mut [u8], at: u64, byte: Option<u8>)
    ensures { bytes.new ≡ spec.with_byte_at bytes.old at byte }
{
    match byte {
        None => {}
        Some(byte) => {
            if at < bytes.len() as u64 {
                bytes[at as usize] = byte;
            }
        }
    }
}

/// The distance of item `k` from an address.
fn offset_of(starts: &[u64], base: u64, k: usize) -> u64
    ensures { result ≡ spec.offset_of starts.now base k }
{
    let start = match starts.get(k) {
        Some(start) => *start,
        None => 0,
    };
    start.saturating_sub(base)
}

/// Puts the data of the items at its places in the bytes from an address on.
pub(crate) fn put_data(bytes: &mut [u8], starts: &[u64], base: u64, filled: &[Option<u8>])
    ensures { bytes.new ≡ spec.with_data starts.now base filled.now bytes.old (length filled.now) }
{
    'items: for k in 0..filled.len() {
        put_byte(bytes, offset_of(starts, base, k), filled[k]);
    }
}

/// Cuts the last byte off, if it was added for labels at the end and no slots follow.
pub(crate) fn cut_end(bytes: &mut Vec<u8>, is_added: bool, slots: &[u64])
    ensures { bytes.new.items ≡ spec.cut_end is_added slots.now bytes.old.items }
{
    match slots {
        [] => {
            if is_added {
                bytes.truncate(bytes.len().saturating_sub(1));
            }
        }
        _ => {}
    }
}
