//! What holders hold on tables, columns and routines.
#![tactic(auto)]

mod held;
mod key;
mod keys;
mod names;
mod object;
mod object_bits;
mod object_ref;

pub use object::Object;
pub use object_bits::ObjectBits;
pub use object_ref::ObjectRef;
