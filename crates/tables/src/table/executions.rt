// A table of executions.
ghost use Rattle.protocol.specs.Empty.{no_execution};
ghost use Rattle.tables.specs.Items.{IsUnused};

use super::Table;
use protocol::Execution;

impl Table<Execution, 256> {
    // 256 executions, every one of them empty.
    // Not by `new`: readers look for the array written out, as `[Execution::EMPTY; 256]`.
    pub fn executions() -> Table<Execution, 256>
        ensures { IsUnused no_execution result }
    {
        Table {
            records: [Execution::EMPTY; 256],
            count: 0,
            empty: Execution::EMPTY,
        }
    }
}
