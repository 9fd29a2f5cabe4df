// Frames out of bytes: decoded, one line of a log a frame, or coded.
#![tactic(auto)]

pub mod cells;
pub mod entry;
pub mod frames;
pub mod input;
