// How a job locks an object.
#[derive(Clone, Copy, PartialEq, Eq, Debug)]
pub enum Mode {
    // to read it
    Read,
    // to read it and give it a new value
    Write,
}
