// What is left of records once a job has ended.
// Records come with their empty one, which fills the places that are no longer in use, so that no trait has to give it; a place and an ending come
// as a table's methods and the book have them.
ghost use Rattle.std.specs.Prelude.{◌≡◌, not, ◌&&◌, Option, length, replicate, ◌==◌};
ghost use Rattle.std.specs.List.{filter_map};
ghost use Rattle.protocol.specs.Places.{single, without};
ghost use Rattle.protocol.specs.Settling.{survives, settled};
ghost use Rattle.tables.specs.Ended.{others, settled_records, Compacted};

use super::records::{Assuming, NamesJob};
use protocol::{Assumption, Ending, PlaceSet};

// A job that has ended, by its place, and how it ended.
#[derive(Clone, Copy)]
struct Ended {
    place: u8,
    ending: Ending,
}

impl Ended {
    // Whether an assumption did not take the job to end the other way.
    fn survives(self, assumption: Assumption) -> bool
        ensures { result ≡ survives self.ending self.place assumption }
    {
        match self.ending {
            Ending::Committed => !assumption.aborts.has(self.place),
            Ending::Aborted => !assumption.commits.has(self.place),
        }
    }

    // The set without the job.
    #[tactic(auto, using(crate::proofs::PlaceLaws::without_placed))]
    fn without(self, set: PlaceSet) -> PlaceSet
        ensures { result.mask ≡ without set.mask (single self.place) }
    {
        set.without(PlaceSet::only(self.place))
    }

    // The assumption with the job taken out of both sets.
    fn settled(self, assumption: Assumption) -> Assumption
        ensures { result ≡ settled self.place assumption }
    {
        Assumption {
            commits: self.without(assumption.commits),
            aborts: self.without(assumption.aborts),
        }
    }

    // Whether a record is left.
    fn is_left<T: Assuming>(self, record: &T) -> bool
        ensures { result ≡ (not (T.NamesJob.named «record».now == self.place) && survives self.ending self.place (T.Assuming.taken «record».now)) }
    {
        is_other(record, self.place) && self.survives(record.assumption())
    }

    // A record that is left, without the job.
    fn without_job<T: Assuming>(self, record: T) -> T
        ensures { result ≡ T.Assuming.assuming «record» (settled self.place (T.Assuming.taken «record»)) }
    {
        record.assume(self.settled(record.assumption()))
    }
}

// Whether a record is of another job.
fn is_other<T: NamesJob>(record: &T, place: u8) -> bool
    ensures { result ≡ not (T.NamesJob.named «record».now == place) }
{
    record.job() != place
}

// Empties every place. `fill` would ask for a clone that cannot fail, and of that `Copy` says nothing.
fn refill<T: Copy>(records: &mut [T], empty: T)
    ensures { records.new ≡ replicate (length records.old) empty }
{
    records.fill_with(|| empty);
}

// Moves to the front, in order, what is left of each record, and empties the places behind; answers how many are left.
// No method of slices drops records where they stand, so the loop writes at a place that it counts.
fn compact<T: Copy, F: Fn(T) -> Option<T>>(records: &mut [T], empty: T, left: F) -> usize
    requires { F.IsAlwaysCallable left }
    ensures { (rule : T → Option T) → ((x : T) (r : Option T) → F.post left x r → r ≡ rule x) → Compacted empty (filter_map rule records.old) records.old result records.new }
{
    let mut live = 0;
    for i in 0..records.len() {
        if let Some(record) = left(records[i]) {
            records[live] = record;
            live += 1;
        }
    }
    refill(&mut records[live..], empty);
    live
}

// Drops the records of an ended job and those that took it to end the other way, and takes it out of the rest; answers how many are left.
pub fn settle<T: Assuming>(records: &mut [T], empty: T, place: u8, ending: Ending) -> usize
    ensures { Compacted empty (settled_records T.NamesJob.named T.Assuming.taken T.Assuming.assuming ending place records.old) records.old result records.new }
{
    let ended = Ended { place, ending };
    compact(
        records,
        empty,
        |record| ended.is_left(&record).then_some(ended.without_job(record)),
    )
}

// Drops the records of an ended job; answers how many are left.
pub fn remove_job<T: NamesJob>(records: &mut [T], empty: T, place: u8) -> usize
    ensures { Compacted empty (others T.NamesJob.named place records.old) records.old result records.new }
{
    compact(
        records,
        empty,
        |record| is_other(&record, place).then_some(record),
    )
}
