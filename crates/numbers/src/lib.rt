// Numbers in the seven-bit form, and the larger and smaller of two: the lowest layer.
#![tactic(auto)]

mod count;
pub mod read;
pub mod sizes;
pub mod write;

pub use read::{Group, NumberAt, NumberError};
pub use write::NoRoom;
