// A store over a table of numbers, one for each object.
ghost use Rattle.std.specs.Prelude.{◌≡◌, min, replicate, IfOk, slice_set};
ghost use Rattle.terms.specs.Objects.{has_object};
ghost use Rattle.stores.specs.Table.{table_values, table_short, table_written};

use super::objects::first_objects;
use std::alloc::{AllocError, Global};
use terms::Store;

#[derive(Drop)]
pub struct TableStore {
    numbers: Vec<u64>,
}

impl TableStore {
    // A store over these numbers.
    pub fn new(table: Vec<u64>) -> TableStore
        ensures whole { result.numbers ≡ table }
        ensures holds { table_values result.numbers.items ≡ table_values table.items }
    {
        TableStore { numbers: table }
    }

    // A store over so many numbers, all at 0.
    #[tactic(auto, using(crate::proofs::Tables::table_zeros))]
    pub fn zeroed(heap: Global, count: u32) -> Result<TableStore, AllocError>
        ensures whole { IfOk result (λ s. s.numbers.items ≡ replicate count 0) }
        ensures holds { IfOk result (λ s. table_values s.numbers.items ≡ replicate (min 65536 count) 0) }
    {
        let numbers = vec![in heap; 0; count as usize]?;
        Ok(TableStore { numbers })
    }

    // The numbers of the objects.
    #[tactic(auto, unfolding(crate::specs::Table::table_values))]
    fn objects(&self) -> &[u64]
        ensures { result.now ≡ table_values self.now.numbers.items }
    {
        first_objects(&self.numbers)
    }

    // The numbers, those past the last object too.
    pub fn numbers(&self) -> &[u64]
        ensures { result.now ≡ self.now.numbers.items }
    {
        self.numbers.as_slice()
    }

    // Gives the table back.
    pub fn into_numbers(self) -> Vec<u64>
        ensures { result ≡ self.numbers }
    {
        let TableStore { numbers } = self;
        numbers
    }
}

impl Store for TableStore {
    ghost values = { λ s. table_values s.numbers.items };

    ghost short = { λ s. table_short s.numbers.items };

    fn len(&self) -> u64 {
        self.objects().len() as u64
    }

    fn read(&self, object: u64) -> Option<u64> {
        self.objects().get(object as usize).copied()
    }

    #[tactic(auto, using(crate::proofs::Tables::table_set, crate::proofs::Tables::table_within))]
    fn write(&mut self, object: u64, value: u64) -> Option<()>
        ensures answers { result ≡ has_object (table_values self.old.numbers.items) object }
        ensures replaces { table_values self.new.numbers.items ≡ slice_set (table_values self.old.numbers.items) object value }
        ensures whole { self.new.numbers.items ≡ table_written self.old.numbers.items object value }
    {
        if object >= self.len() {
            return None;
        }
        self.numbers[object as usize] = value;
        Some(())
    }
}
