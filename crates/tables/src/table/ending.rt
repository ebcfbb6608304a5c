// What is left of a table once a job has ended.
ghost use Rattle.tables.specs.Ended.{others, settled_records};
ghost use Rattle.tables.specs.Items.{items, Becomes};

use super::super::ended::{remove_job, settle};
use super::super::records::{Assuming, NamesJob};
use super::Table;
use protocol::Ending;

impl<T: NamesJob, const N: usize> Table<T, N> {
    // The job's records go.
    pub fn remove_job(&mut self, place: u8)
        ensures { Becomes self.old self.new (others T.NamesJob.named place (items self.old)) }
    {
        self.count = remove_job(&mut self.records[..self.count], self.empty, place);
    }
}

impl<T: Assuming, const N: usize> Table<T, N> {
    // The job has ended.
    pub fn settle(&mut self, place: u8, ending: Ending)
        ensures { Becomes self.old self.new (settled_records T.NamesJob.named T.Assuming.taken T.Assuming.assuming ending place (items self.old)) }
    {
        self.count = settle(&mut self.records[..self.count], self.empty, place, ending);
    }
}
