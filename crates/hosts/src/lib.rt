// A receiver over memory that a host lends: an image of cells, and beside it what lasts from call to call.
#![tactic(auto)]

pub mod floors;
pub mod images;
pub mod supply;
