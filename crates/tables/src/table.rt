// A table: room for N records, of which the first `count` are in use, in order, and the rest are empty.
// An array and a count, and no vector: a book's memory is of one fixed size, a new book's arrays are written out as `[EMPTY; 256]`,
// and what is not in use is always empty, which a vector in fixed room would not say.
// Ghost fields and no model: what a new table promises speaks of all its places.
ghost use Rattle.std.specs.Prelude.{◌≡◌, ◌-◌, ◌≤◌, length, drop, replicate};

mod access;
mod ending;
mod executions;
mod holdings;
mod versions;

#[derive(Drop)]
pub struct Table<T, const N: usize> {
    records: [T; N],
    count: usize,
    // the empty record
    empty: T,
    ghost within: { count ≤ N },
    ghost long: { length records ≡ N },
    ghost rest: { drop count records ≡ replicate (N - count) empty },
}

// The table has no room for it.
#[derive(Clone, Copy, PartialEq, Eq, Debug)]
pub struct Full;
