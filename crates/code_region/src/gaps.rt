//! The search for a gap between live blocks.

ghost use Rattle.std.specs.Prelude.{◌≡◌, ◌==◌, ◌+◌, ◌-◌, ◌^◌, ◌<◌, ◌≤◌, IfSome, IfNone, if◌then◌else◌, length, take};
ghost use Rattle.code_region.specs.Keeping.{AreApart, IsTight};
ghost use Rattle.code_region.specs.Searching.{IsSearched, IsAt, IsNowhere, end_from};

/// Consecutive bytes of a region: the offset of the first byte from the region's start, and the length in bytes.
#[derive(Clone, Copy)]
pub struct Span {
    pub start: u32,
    pub len: u32,
}

/// The result of a search for a gap.
#[derive(Clone, Copy)]
pub enum Search {
    /// The gap before the span with this index, by address, is the first that is long enough, and it begins at this offset. `packed`: once a span
    /// fills it, so many of the first spans have no gap before them.
    Found {
        index: usize,
        start: u32,
        packed: usize,
    },
    /// No gap is long enough; the longest has this many bytes.
    Missing {
        largest: u32,
    },
}

/// Returns the end of the first `count` spans, which leave no gap above 2^32.
#[inline]
fn end_of(spans: &[Span], count: usize) -> u32
    requires inside { count ≤ length spans.now }
    requires apart { AreApart 0 (2 ^ 32 - 1) spans.now }
    ensures { result ≡ end_from 0 (take count spans.now) }
{
    if count == 0 {
        return 0;
    }
    let last = spans[count - 1];
    last.start + last.len
}

/// Returns how many of the first spans have no gap before them after a span is inserted at `index`, in the first gap that is long enough. Before,
/// `packed` had none; the longest gap before `index` has `largest` bytes.
#[inline]
fn packed_with(packed: usize, index: usize, largest: u32) -> usize
    requires { index < 2 ^ 64 - 1 }
    ensures { result ≡ (if largest == 0 then index + 1 else packed) }
{
    if largest == 0 { index + 1 } else { packed }
}

/// Searches for the first gap of `needed` bytes between spans that end at or before `limit`. The first `packed` spans have no gap before them.
pub fn first_fit(spans: &[Span], packed: usize, limit: u32, needed: u64) -> Search
    requires apart { AreApart 0 limit spans.now }
    requires tight { IsTight packed spans.now }
    requires some { 0 < needed }
    ensures { IsSearched limit spans.now needed result }
{
    let mut from = end_of(spans, packed);
    let mut largest: u32 = 0;
    for index in packed..spans.len() {
        let span = spans[index];
        let gap = span.start - from;
        if needed <= u64::from(gap) {
            return Search::Found {
                index,
                start: from,
                packed: packed_with(packed, index, largest),
            };
        }
        largest = largest.max(gap);
        from = span.start + span.len;
    }
    let gap = limit - from;
    if needed <= u64::from(gap) {
        let index = spans.len();
        return Search::Found {
            index,
            start: from,
            packed: packed_with(packed, index, largest),
        };
    }
    Search::Missing {
        largest: largest.max(gap),
    }
}

/// Finds the span that starts at the address `place` in a region that starts at `base`.
pub fn find_place(spans: &[Span], base: u64, place: u64) -> Option<usize>
    requires { AreApart 0 (2 ^ 64 - base) spans.now }
    ensures found { IfSome result (λ index. IsAt base place spans.now index) }
    ensures missing { IfNone result (IsNowhere base place spans.now) }
{
    let mut low = 0;
    let mut high = spans.len();
    while low < high {
        let middle = low + (high - low) / 2;
        let start = base + u64::from(spans[middle].start);
        if start == place {
            return Some(middle);
        }
        if start < place {
            low = middle + 1;
        } else {
            high = middle;
        }
    }
    None
}
