// The objects of a list, which may be longer than a store.
ghost use Rattle.std.specs.Prelude.{◌≡◌, take};

use terms::MOST_OBJECTS;

// The first of a list, as many as there may be objects; all where there are fewer.
#[tactic(auto, using(crate::proofs::Firsts::take_fewer))]
pub(crate) fn first_objects<T>(all: &[T]) -> &[T]
    ensures { result.now ≡ take 65536 all.now }
{
    &all[..all.len().min(MOST_OBJECTS)]
}
