// A table of versions.
ghost use Rattle.protocol.specs.Empty.{no_version};
ghost use Rattle.tables.specs.Items.{IsUnused};

use super::Table;
use protocol::Version;

impl Table<Version, 256> {
    // 256 versions, every one of them empty.
    // Not by `new`: readers look for the array written out, as `[Version::EMPTY; 256]`.
    pub fn versions() -> Table<Version, 256>
        ensures { IsUnused no_version result }
    {
        Table {
            records: [Version::EMPTY; 256],
            count: 0,
            empty: Version::EMPTY,
        }
    }
}
