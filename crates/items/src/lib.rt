// CBOR items as the protocol restricts them: reading a whole message, looking up a key, reading a field at its place.
#![tactic(auto)]

pub mod fields;
mod item;
mod keys;
mod map;
mod message;
mod reader;
pub mod types;

pub use fields::{
    bytes_at, integer_at, key_at, map_at, map_head_at, negative_at, text_at, unsigned_at,
};
pub use item::ITEMS;
pub use map::lookup;
pub use message::read;
pub use reader::heads::head_size_at;
