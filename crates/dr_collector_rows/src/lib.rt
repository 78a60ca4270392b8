//! A machine beside its collector: what deposits, resets and flushes answer, and the events that
//! they leave.
#![tactic(auto)]

#[cfg(test)]
mod guests;
#[cfg(test)]
mod past;
#[cfg(test)]
mod reaps;
#[cfg(test)]
mod rows;
#[cfg(test)]
mod start;
#[cfg(test)]
mod tests;
#[cfg(test)]
mod threads;
#[cfg(test)]
mod twice;
