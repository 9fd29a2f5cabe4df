// What the calls of a decoder take and answer.
pub use crate::decoder::{Decoder, Finished, Idle, Open, Opened, Refused};
