// Where the parts of a load lie: its landings kind by kind, then the source's leads link by link.
ghost use Rattle.std.specs.Prelude.{◌≡◌, ◌+◌, ◌≤◌, length, slice_index};
ghost use Rattle.registers.specs.Writing.{upto};
ghost use Rattle.machine.specs.Loading.{sum};
ghost use Rattle.bounded.specs.Listed.{listed};
ghost use Rattle.rows.specs.Sources.{kinds_of, counts_of, starts_of};

use bounded::Bounded;
use rows::{Source, SourceKind};

// Where parts of these sizes begin that stand one behind another from a place on, and the place behind the last.
pub(crate) fn pile(sizes: &[u32], place: usize) -> (Bounded<usize, 64>, usize)
    requires few { length sizes.now ≤ 64 }
    requires low { place ≤ 268439551 }
    ensures starts { listed result.0 ≡ upto (λ i. place + sum (slice_index sizes.now) i) (length sizes.now) }
    ensures behind { result.1 ≡ place + sum (slice_index sizes.now) (length sizes.now) }
{
    let mut starts = Bounded::new(0);
    let mut next = place;
    for size in sizes {
        starts.push(next);
        next += *size as usize;
    }
    (starts, next)
}

// The same of the kinds of a source that have these numbers of records, each with its number.
pub(crate) fn stack(counts: &[u32], place: usize) -> (Source, usize)
    requires few { length counts.now ≤ 32 }
    requires low { place ≤ 268439551 }
    ensures kinds { kinds_of result.0 ≡ length counts.now }
    ensures counts { counts_of result.0 ≡ counts.now }
    ensures starts { starts_of result.0 ≡ upto (λ k. place + sum (slice_index counts.now) k) (length counts.now) }
    ensures behind { result.1 ≡ place + sum (slice_index counts.now) (length counts.now) }
{
    let none = SourceKind {
        records: 0,
        start: 0,
    };
    let mut kinds = Bounded::new(none);
    let mut next = place;
    for records in counts {
        kinds.push(SourceKind {
            records: *records,
            start: next,
        });
        next += *records as usize;
    }
    (Source { kinds }, next)
}
