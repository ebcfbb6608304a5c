// Making a table, reading it and adding to it.
ghost use Rattle.std.specs.Prelude.{◌≡◌, [], ◌∷◌, length};
ghost use Rattle.tables.specs.Items.{items, Added, IsUnused};

use super::{Full, Table};

impl<T: Copy, const N: usize> Table<T, N> {
    // A table with nothing in use.
    pub fn new(empty: T) -> Table<T, N>
        ensures { IsUnused empty result }
    {
        Table {
            records: [empty; N],
            count: 0,
            empty,
        }
    }

    // Those in use, in order.
    pub fn in_use(&self) -> &[T]
        ensures { result.now ≡ items self.now }
    {
        &self.records[..self.count]
    }

    // How many are in use.
    pub fn len(&self) -> usize
        ensures { result ≡ length (items self.now) }
    {
        self.in_use().len()
    }

    // Adds the record behind the others.
    pub fn push(&mut self, record: T) -> Result<(), Full>
        ensures added { Added N (items self.old) («record» ∷ []) (items self.new) result }
        ensures spare { self.new.empty ≡ self.old.empty }
    {
        if self.count == N {
            return Err(Full);
        }
        self.records[self.count] = record;
        self.count += 1;
        Ok(())
    }

    // Adds all of them behind the others, or none.
    pub fn extend(&mut self, more: &[T]) -> Result<(), Full>
        ensures added { Added N (items self.old) more.now (items self.new) result }
        ensures spare { self.new.empty ≡ self.old.empty }
    {
        if N - self.count < more.len() {
            return Err(Full);
        }
        let end = self.count + more.len();
        // by a slice of the whole: of an array of N a front is lent, and no part from one place to another
        let all = &mut self.records[..];
        all[self.count..end].copy_from_slice(more);
        self.count = end;
        Ok(())
    }
}
