//! Writing the bytes of one block.

ghost use Rattle.std.specs.Prelude.{◌≡◌, ◌+◌, ◌-◌, ◌≤◌, ◌++◌, length, replicate};
ghost use Rattle.code_region.specs.Keeping.{with_bytes_at};
ghost use Rattle.code_region.specs.State.{int3};
ghost use Rattle.code_region.specs.Contents.{content_bytes};

/// The byte of INT3. It fills everything outside contents.
pub const INT3: u8 = 0xCC;

/// The content at the front of a live block.
#[derive(Clone, Copy)]
pub enum Content<'a> {
    /// These bytes.
    Bytes(&'a [u8]),
    /// `count` times `byte`.
    Repeated { byte: u8, count: usize },
}

/// Writes INT3 to the `len` bytes at `start`.
pub fn erase(image: &mut [u8], start: usize, len: usize)
    requires { start + len ≤ length image.old }
    ensures { image.new ≡ with_bytes_at image.old start (replicate len int3) }
{
    image[start..start + len].fill(INT3);
}

/// Writes `content` at `start`, and INT3 to the rest of the `len` bytes.
pub fn write_bytes(image: &mut [u8], start: usize, len: usize, content: &[u8])
    requires inside { start + len ≤ length image.old }
    requires fits { length content.now ≤ len }
    ensures { image.new ≡ with_bytes_at image.old start (content.now ++ replicate (len - length content.now) int3) }
{
    image[start..start + content.len()].copy_from_slice(content);
    erase(image, start + content.len(), len - content.len());
}

/// Writes `count` times `byte`, as [`write_bytes`] does.
fn repeat(image: &mut [u8], start: usize, len: usize, byte: u8, count: usize)
    requires inside { start + len ≤ length image.old }
    requires fits { count ≤ len }
    ensures { image.new ≡ with_bytes_at image.old start (replicate count byte ++ replicate (len - count) int3) }
{
    image[start..start + count].fill(byte);
    erase(image, start + count, len - count);
}

/// Writes `content`, of either kind, as [`write_bytes`] does.
pub fn write(image: &mut [u8], start: usize, len: usize, content: Content<'_>)
    requires inside { start + len ≤ length image.old }
    requires fits { length (content_bytes content) ≤ len }
    ensures { image.new ≡ with_bytes_at image.old start (content_bytes content.entry ++ replicate (len - length (content_bytes content.entry)) int3) }
{
    match content {
        Content::Bytes(bytes) => write_bytes(image, start, len, bytes),
        Content::Repeated { byte, count } => repeat(image, start, len, byte, count),
    }
}
