// A store, by the list of its values.
ghost use Rattle.std.specs.Prelude.{◌≡◌, ℕ, ◌≤◌, List, length, slice_set};
ghost use Rattle.terms.specs.Objects.{value_at, has_object};

// The most objects that a store has.
pub const MOST_OBJECTS: usize = 65536;

pub trait Store {
    // The values of the objects 0, 1, 2, ..
    ghost values: { Self → List ℕ };

    // There are at most 65,536 objects.
    ghost short: { (s : Self) → length (values s) ≤ 65536 };

    // How many objects there are.
    fn len(&self) -> u64
        ensures counts { result ≡ length (values self.now) };

    // The value of an object; none where there is no such object.
    fn read(&self, object: u64) -> Option<u64>
        ensures reads { result ≡ value_at (values self.now) object };

    // Replaces the value of an object and no other; none, and nothing is changed, where there is no such object.
    fn write(&mut self, object: u64, value: u64) -> Option<()>
        ensures answers { result ≡ has_object (values self.old) object }
        ensures replaces { values self.new ≡ slice_set (values self.old) object value };
}
