// What an object offers to a job that locks it.
ghost use Rattle.std.specs.Prelude.{◌≡◌, ◌≤◌, ◌∷◌, map, length, filter};
ghost use Rattle.protocol.specs.Assumptions.{assume};
ghost use Rattle.protocol.specs.Holdings.{makers as makers_of};
ghost use Rattle.protocol.specs.Pairing.{offer, of_object};
ghost use Rattle.holders.specs.Placed.{Placed};
ghost use Rattle.tables.specs.Items.{items};

use super::gathering::gather;
use holders::{later_makers, makers};
use protocol::{Assumption, Holding, Offer, PlaceSet, Version};
use tables::Table;

// An object, among holdings whose jobs are at places.
#[derive(Drop)]
pub(crate) struct Offering<'a> {
    pub holdings: &'a [Holding],
    pub object: u64,
    ghost placed: { Placed holdings.now },
}

impl Offering<'_> {
    // The stored value takes every maker to abort.
    fn stored(&self, value: u64) -> Offer
        ensures { result ≡ record { value = value; assumes = assume 0 (makers_of self.now.object self.now.holdings.now) } }
    {
        Offer {
            value,
            assumes: Assumption {
                commits: PlaceSet::EMPTY,
                aborts: makers(self.holdings, self.object),
            },
        }
    }

    // A version takes every later maker to abort.
    fn made(&self, version: &Version) -> Offer
        ensures { result ≡ offer self.now.holdings.now self.now.object version.now }
    {
        let later = later_makers(self.holdings, self.object, version.maker);
        Offer {
            value: version.value,
            assumes: Assumption {
                aborts: version.assumes.aborts.joined(later),
                ..version.assumes
            },
        }
    }

    // The stored value first, then the versions of the object.
    pub(crate) fn offers(&self, value: u64, versions: &[Version]) -> Table<Offer, 257>
        requires { length versions.now ≤ 256 }
        ensures { items result ≡ (record { value = value; assumes = assume 0 (makers_of self.now.object self.now.holdings.now) }) ∷ map (offer self.now.holdings.now self.now.object) (filter (of_object self.now.object) versions.now) }
    {
        let mut all = Table::new(Offer::EMPTY);
        let made = versions
            .iter()
            .filter(|version| version.object == self.object)
            .map(|version| self.made(version));
        // `iter::once` was tried: where nothing names `Option`, the check cannot build its own part of the proof for such a chain
        gather(&mut all, Some(self.stored(value)).into_iter().chain(made));
        all
    }
}
