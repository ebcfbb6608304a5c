// What a committing job made goes into the store.
ghost use Rattle.std.specs.Prelude.{◌≡◌, ◌&&◌, slice_index, slice_set};
ghost use Rattle.protocol.specs.Ending.{made_value, written};
ghost use Rattle.protocol.specs.Holdings.{held_by, turned};

use super::place::Place;
use protocol::{Holding, HoldingState, Version};
use terms::Store;

// What the job at a place made, among all versions.
#[derive(Clone, Copy)]
pub(crate) struct Made<'a> {
    pub place: Place,
    pub versions: &'a [Version],
}

impl Made<'_> {
    // The value of the job's version of an object, or else `other`.
    fn value_or(&self, object: u64, other: u64) -> u64
        ensures { result ≡ made_value self.now.place.number object self.now.versions.now other }
    {
        self.versions
            .iter()
            .find(|version| version.maker == self.place.number && version.object == object)
            .map_or(other, |version| version.value)
    }

    fn has_turned(&self, holding: &Holding) -> bool
        ensures { result ≡ (held_by self.now.place.number holding.now && turned holding.now.state) }
    {
        holding.job == self.place.number && holding.state == HoldingState::Turned
    }

    fn write_one<S: Store>(&self, store: &mut S, object: u64)
        ensures { S.Store.values store.new ≡ slice_set (S.Store.values store.old) object (made_value self.now.place.number object self.now.versions.now (slice_index (S.Store.values store.old) object)) }
    {
        if let Some(value) = store.read(object) {
            store.write(object, self.value_or(object, value));
        }
    }

    // Writes the values of the job's versions, in the order of locking.
    pub(crate) fn write<S: Store>(&self, store: &mut S, holdings: &[Holding])
        ensures { S.Store.values store.new ≡ written self.now.place.number self.now.versions.now holdings.now (S.Store.values store.old) }
    {
        // a `for` with an `if`: over a filter it was tried, and can have no invariant in a generic function; after `for_each` nothing is known of the store, and a function over what comes, as `Found::add_all`, would be one more for this loop alone
        for holding in holdings {
            if self.has_turned(holding) {
                self.write_one(store, holding.object);
            }
        }
    }
}
