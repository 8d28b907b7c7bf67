// A message that was read: its octets, and what they show.
use crate::types::View;

pub mod checks;
pub mod reading;
mod slices;

/// Octets, and what they show as a message.
#[derive(Clone, Copy)]
pub struct Message<'a> {
    pub octets: &'a [u8],
    pub view: View,
}
