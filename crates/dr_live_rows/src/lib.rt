//! The top call of `run` as tables: which words it takes, what runs in threads leave, and what they
//! leave where a put fails.
#![tactic(auto)]

#[cfg(test)]
mod copies;
#[cfg(test)]
mod cut_rows;
#[cfg(test)]
mod judged_rows;
#[cfg(test)]
mod nap_rows;
#[cfg(test)]
mod runs;
#[cfg(test)]
mod small_rows;
#[cfg(test)]
mod usual_rows;
#[cfg(test)]
mod word_rows;
