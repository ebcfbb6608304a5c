// A table of holdings.
ghost use Rattle.std.specs.Prelude.{map};
ghost use Rattle.protocol.specs.Holdings.{turn};
ghost use Rattle.tables.specs.Items.{items, Becomes};

use super::super::turning::turn;
use super::Table;
use protocol::Holding;

impl<const N: usize> Table<Holding, N> {
    // Turns the job's open holding of the object.
    pub fn turn(&mut self, place: u8, object: u64)
        ensures { Becomes self.old self.new (map (turn place object) (items self.old)) }
    {
        turn(&mut self.records[..self.count], place, object);
    }
}
