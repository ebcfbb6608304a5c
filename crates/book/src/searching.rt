// The records of one job, among all.
ghost use Rattle.std.specs.Prelude.{◌≡◌, length, nat_eq, filter};
ghost use Rattle.std.specs.List.{slice_get};

use super::place::Place;
use tables::NamesJob;

// How many there are.
pub(crate) fn count_of<T: NamesJob>(records: &[T], place: Place) -> usize
    ensures { result ≡ length (filter (λ x. nat_eq (T.NamesJob.named x) place.number) records.now) }
{
    // a loop: `filter` and `count` were tried, at more than twice the instructions for each record, and each lock, image and commit counts
    let mut count = 0;
    for record in records {
        if record.job() == place.number {
            count += 1;
        }
    }
    count
}

// The n-th of them, from 0.
pub(crate) fn nth_of<T: NamesJob>(records: &[T], place: Place, n: u64) -> Option<T>
    ensures { result ≡ slice_get (filter (λ x. nat_eq (T.NamesJob.named x) place.number) records.now) n }
{
    records
        .iter()
        .filter(|record| record.job() == place.number)
        .nth(n as usize)
        .copied()
}
