//! The least of a list.
ghost use Rattle.std.specs.Prelude.{◌≡◌, length, MatchOption};
ghost use Rattle.order.specs.Least.{FirstLeast};

/// The place of the least item, the first among equals; nothing where there is none.
pub fn least<T: Ord>(items: &[T]) -> Option<usize>
    ensures { MatchOption result (length items.now ≡ 0) (λ i. FirstLeast T.cmp items.now i) }
{
    if items.is_empty() {
        return None;
    }
    // The contract of `min_by` tells the comparisons one by one, and not that its item is the first least.
    let mut best = 0;
    for (i, item) in items.iter().enumerate() {
        // The first is the best so far, and is not compared with itself.
        if 0 < i && item.cmp(&items[best]).is_lt() {
            best = i;
        }
    }
    Some(best)
}
