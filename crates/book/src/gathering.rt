// What comes, one after another, goes into a table.
ghost use Rattle.std.specs.Prelude.{◌≡◌, ◌+◌, ◌≤◌, List, ◌++◌, length};
ghost use Rattle.std.specs.Iterator.{IsFinite, HoldsAlong, Drains};
ghost use Rattle.tables.specs.Items.{items};

use tables::Table;

// Adds all that comes, in order, behind what is there. There has to be room for it, so this is no method of `tables`, whose functions ask nothing of their callers.
// The table is lent, not made here: returned from here it would be copied once more, and a replay of 5,055 lines took 5 % longer.
pub(crate) fn gather<T: Copy, I: Iterator<Item = T> + Drop, const N: usize>(
    all: &mut Table<T, N>,
    them: I,
)
    requires can { I.can_next them }
    requires ends { IsFinite (I.remaining them) }
    requires fits { HoldsAlong I.next_gives them (λ came. length (items all.old) + length came ≤ N) }
    ensures { (came : List T) × Drains I.next_gives them came × (items all.new ≡ items all.old ++ came) }
{
    for one in them {
        all.push(one).unwrap();
    }
}
