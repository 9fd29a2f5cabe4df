// What the calls of a coder take and answer.
pub use crate::coder::{Coder, Finished, Idle, Open};
