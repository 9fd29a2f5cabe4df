// Quantizing characteristics: what a set of four means, and two sets that mean it.
#![tactic(auto)]

pub mod characteristic;
pub mod figures;
pub mod lineup;
pub mod quantize;
pub mod set;
mod sign;
pub mod table;

pub use characteristic::Characteristic;
pub use figures::worked_figures;
pub use lineup::LineUpSet;
pub use quantize::quantized;
pub use set::CharacteristicSet;
pub use table::StandardSet;

#[cfg(test)]
mod tests;
