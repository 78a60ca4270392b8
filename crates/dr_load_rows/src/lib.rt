//! Streams from anyone, whole and damaged, by the top call of `load`.
#![tactic(auto)]

#[cfg(test)]
mod cut_rows;
#[cfg(test)]
mod end_rows;
#[cfg(test)]
mod fault_rows;
#[cfg(test)]
mod header_rows;
#[cfg(test)]
mod image_rows;
#[cfg(test)]
mod loads;
#[cfg(test)]
mod streams;
