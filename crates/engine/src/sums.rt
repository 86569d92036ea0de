//! How many of the first marks are true, and the fewest in a row by that.
ghost use Rattle.std.specs.Prelude.{◌≡◌, ℕ, ◌+◌, ◌≤◌, length, slice_index};
ghost use Rattle.cyclic.specs.Fewest.{fewest};
ghost use Rattle.cyclic.specs.Ones.{ones};
ghost use Rattle.engine.specs.Marks.{marked};

use crate::marks::MARKS;
use crate::round::Round;
use std::array;

/// The places of a table from 0 to two rounds of marks.
const SUMS: usize = 2 * MARKS + 1;

/// The places of a table from 0 to a round of marks.
pub(crate) const ROUND: usize = MARKS + 1;

/// A round of marks, and for each k up to two rounds of them how many of the first k are true.
#[derive(Debug, Clone, Copy, PartialEq, Eq)]
pub(crate) struct Sums {
    round: Round,
    table: [u32; SUMS],
    ghost summed: { ((k : ℕ) → k ≤ length (marked round.marks) + length (marked round.marks) → slice_index table k ≡ ones (marked round.marks) 0 k) },
}

/// For each k up to two rounds of the marks how many of the first k are true.
fn summed(round: &Round) -> [u32; SUMS]
    ensures { (k : ℕ) → k ≤ length (marked round.now.marks) + length (marked round.now.marks) → slice_index result k ≡ ones (marked round.now.marks) 0 k }
{
    let mut table = [0; SUMS];
    let mut sum = 0;
    for (k, place) in table.iter_mut().enumerate() {
        if k > 2 * round.len() {
            break;
        }
        *place = sum;
        sum += round.mark(k);
    }
    table
}

impl Sums {
    /// The sums of these marks.
    pub(crate) fn of(round: &Round) -> Sums
        ensures { result.round ≡ round.now }
    {
        Sums {
            round: *round,
            table: summed(round),
        }
    }

    // A start and a length are asked for where they are used: they are no part of the sums.
    /// How many of the n marks from a start on are true.
    fn ones(&self, start: usize, n: usize) -> u32
        requires { (start ≤ length (marked self.now.round.marks)) × (n ≤ length (marked self.now.round.marks)) }
        ensures { result ≡ ones (marked self.now.round.marks) start n }
    {
        self.table[start + n] - self.table[start]
    }

    /// The fewest true marks among n in a row.
    fn fewest(&self, n: usize) -> u32
        requires { n ≤ length (marked self.now.round.marks) }
        ensures { result ≡ fewest (marked self.now.round.marks) n }
    {
        (0..self.round.len())
            .map(|start| self.ones(start, n))
            .min()
            .unwrap_or(0)
    }

    /// The fewest true marks among n in a row, for each n up to a round of the marks.
    pub(crate) fn least(&self) -> [u32; ROUND]
        ensures { (n : ℕ) → n ≤ length (marked self.now.round.marks) → slice_index result n ≡ fewest (marked self.now.round.marks) n }
    {
        // A place beyond the round is not asked for, and costs nothing.
        array::from_fn(
            |n| -> u32
                ensures { n ≤ length (marked self.entry.now.round.marks) → result ≡ fewest (marked self.entry.now.round.marks) n }
            {
                if n <= self.round.len() {
                    self.fewest(n)
                } else {
                    0
                }
            },
        )
    }
}
