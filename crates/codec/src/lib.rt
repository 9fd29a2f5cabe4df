// The source coder and decoder: the rules of one pel, the line, the block-line, and the ends that code and decode frames.
#![tactic(auto)]

mod block;
mod boxed;
pub mod coder;
mod coding;
pub mod decoder;
pub mod end;
pub mod figures;
mod lent;
mod line;
pub mod memories;
pub mod modes;
mod pel;
