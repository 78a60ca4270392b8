//! Worked histories of small guests, judged event by event.
#![tactic(auto)]

#[cfg(test)]
mod event_row;
#[cfg(test)]
mod guests;
#[cfg(test)]
mod histories;
#[cfg(test)]
mod judge;
#[cfg(test)]
mod tests;
