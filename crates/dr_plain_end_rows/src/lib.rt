//! The top call as tables: where its rounds end, when it reads its clock and sleeps, what is left
//! where a read or a put fails, and how guests at the limits end.
#![tactic(auto)]

#[cfg(test)]
mod cut_rows;
#[cfg(test)]
mod limit_rows;
#[cfg(test)]
mod round_rows;
#[cfg(test)]
mod sleep_rows;
