//! The records whose texts begin with a text.

ghost use Rattle.std.specs.Prelude.{◌≡◌, ◌≤◌, ◌+◌, All, drop, false, filter, length, map, nat_eq, take, true};
ghost use Rattle.std.specs.List.{starts_with};
ghost use Rattle.std.specs.List.Sorted.{IsPartitionPoint};
ghost use Rattle.tinystr_words.specs.Text.{IsPaddedText, pad, text_of};
ghost use Rattle.tinystr_packed.specs.Private.{AreRisingRecords, IsRecord};
ghost use Rattle.tinystr_packed.specs.Rising.{IsRising, IsFirstNotBelow};

use crate::search::{is_below_at, lower_bound, lower_bound_whole};
use tinystr::TinyAsciiStr;

/// How many records begin with a text. No record may be below it.
// They are those below the text with its last byte raised by one, which is at most 128.
#[inline(always)]
pub(crate) fn count_with_prefix<const N: usize>(
    records: &[[u8; N]],
    beginning: &TinyAsciiStr<N>,
) -> usize
    requires records { AreRisingRecords N records.now }
    requires not_below { IsFirstNotBelow (pad beginning.now N) records.now 0 }
    ensures bound { result ≤ length records.now }
    ensures count { IsPartitionPoint (λ raw. starts_with nat_eq raw beginning.now ≡ true) (λ raw. starts_with nat_eq raw beginning.now ≡ false) records.now result }
{
    let Some(last) = beginning.len().checked_sub(1) else {
        return records.len();
    };
    let mut above = *beginning.all_bytes();
    above[last] += 1;
    lower_bound_near_start(records, &above)
}

// The place of a key.
// Speed: if the last record is below the key, no other is compared. Else the time grows with the logarithm of the place, since
// mostly few records begin with a text: steps that grow eightfold pass the place, and the records that the last step passed are
// searched.
#[tactic(auto, using(crate::proofs::RisingTexts::below_from_rising))]
#[inline(always)]
fn lower_bound_near_start<const N: usize>(records: &[[u8; N]], key: &[u8; N]) -> usize
    requires records { AreRisingRecords N records.now }
    requires key { IsRecord N key.now }
    ensures { IsFirstNotBelow key.now records.now result }
{
    let len = records.len();
    if len > 0 && is_below_at(records, len - 1, key) {
        return len;
    }
    let mut start: usize = 0;
    while is_below_at(records, start.saturating_mul(8), key) {
        start = 8 * start + 1;
    }
    let end = len.min(start.saturating_mul(8));
    start + lower_bound(&records[start..end], key)
}

/// The place of a text among records, and how many of those from there on begin with it. Of any records it is a range inside
/// them.
// Speed: the end is found by halves, by the front of each record. `count_with_prefix` is faster among most records, but
// slower among 4 records of 8 bytes or 10 of 16.
pub(crate) fn range_by_fronts<const N: usize>(
    records: &[[u8; N]],
    beginning: &TinyAsciiStr<N>,
) -> (usize, usize)
    ensures bound { result.0 + result.1 ≤ length records.now }
    ensures start { All (λ raw. IsPaddedText raw N) records.now → IsRising (map text_of records.now) →
        IsFirstNotBelow beginning.now (map text_of records.now) result.0 }
    ensures range { All (λ raw. IsPaddedText raw N) records.now → IsRising (map text_of records.now) →
        take result.1 (drop result.0 (map text_of records.now))
        ≡ filter (λ t. starts_with nat_eq t beginning.now) (map text_of records.now) }
{
    let start = lower_bound_whole(records, beginning.all_bytes());
    let (_, rest) = records.split_at(start);
    let beginning = beginning.as_utf8();
    let len = rest.partition_point(
        |raw| -> bool
            ensures { result ≡ starts_with nat_eq raw.now beginning.entry.now }
        { raw[..].starts_with(beginning) },
    );
    (start, len)
}
