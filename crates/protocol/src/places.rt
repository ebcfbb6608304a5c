// A set of the places 0 to 15. No other file works on bits.
// Words and no operators: `-` reads as arithmetic, and for `is_disjoint` there is none. `FromIterator` and `Extend` may fail for want of memory.
ghost use Rattle.std.specs.Prelude.{◌≡◌, ◌≤◌, ◌==◌};
ghost use Rattle.protocol.specs.Places.{has, single, join, without, disjoint, size, placed};

#[derive(Clone, Copy, PartialEq, Eq, Debug)]
pub struct PlaceSet {
    pub mask: u16,
}

impl PlaceSet {
    pub const EMPTY: PlaceSet = PlaceSet { mask: 0 };

    // The set of one place; empty where there is no such place.
    #[tactic(auto, using(crate::proofs::SetDigits::placed_shift, crate::proofs::SetDigits::placed_none))]
    pub fn only(place: u8) -> PlaceSet
        ensures { result.mask ≡ placed (single place) }
    {
        if place < 16 {
            PlaceSet { mask: 1 << place }
        } else {
            PlaceSet::EMPTY
        }
    }

    #[tactic(auto, using(crate::proofs::SetDigits::has_past), unfolding(crate::specs::Places::has))]
    pub fn has(self, place: u8) -> bool
        ensures { result ≡ has self.mask place }
    {
        place < 16 && (self.mask >> place) % 2 == 1
    }

    pub fn is_empty(self) -> bool
        ensures { result ≡ (self.mask == 0) }
    {
        self.mask == 0
    }

    // What is in one of the two.
    #[tactic(auto, unfolding(crate::specs::Places::join))]
    pub fn joined(self, other: PlaceSet) -> PlaceSet
        ensures { result.mask ≡ join self.mask other.mask }
    {
        PlaceSet {
            mask: self.mask | other.mask,
        }
    }

    // What is in this set and not in the other.
    #[tactic(auto, using(crate::proofs::SetDigits::and_not))]
    pub fn without(self, other: PlaceSet) -> PlaceSet
        ensures { result.mask ≡ without self.mask other.mask }
    {
        PlaceSet {
            mask: self.mask & !other.mask,
        }
    }

    // Whether no place is in both.
    #[tactic(auto, unfolding(crate::specs::Places::disjoint))]
    pub fn is_disjoint(self, other: PlaceSet) -> bool
        ensures { result ≡ disjoint self.mask other.mask }
    {
        self.mask & other.mask == 0
    }

    // How many places are in it.
    #[tactic(auto, using(crate::proofs::SetDigits::size_ones))]
    pub fn size(self) -> u32
        ensures counts { result ≡ size self.mask }
        ensures few { result ≤ 16 }
    {
        self.mask.count_ones()
    }
}
