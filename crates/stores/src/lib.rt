// Two stores: a table of numbers, and an image of bytes.
// They stay two types: a table and an image go in and come back, each by its own name; what else is alike is a line or two in each method, and a trait to share it would be longer.
// Neither has a model: the very vector goes in and comes back, and clauses name it by its field.
#![tactic(auto)]

pub mod image;
mod objects;
pub mod table;

pub use image::ImageStore;
pub use table::TableStore;
