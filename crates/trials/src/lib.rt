#![tactic(auto)]

// Trials on examples: the worked figures, the refusals of the calls, the two makes, frames coded from bytes.
#[cfg(test)]
mod coding;
#[cfg(test)]
mod figures;
#[cfg(test)]
mod makes;
#[cfg(test)]
mod refusals;
#[cfg(test)]
mod streams;
