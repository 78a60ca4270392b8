//! The top call as tables: what runs leave on its four ports.
#![tactic(auto)]

#[cfg(test)]
mod live_rows;
#[cfg(test)]
mod small_rows;
#[cfg(test)]
mod usual_rows;
#[cfg(test)]
mod zero_rows;
