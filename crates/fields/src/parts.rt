// A part of a script, and its place in it.
#[derive(Clone, Copy)]
pub struct Field<'a> {
    pub bytes: &'a [u8],
    // how many bytes of the script stand before it
    pub at: usize,
}
