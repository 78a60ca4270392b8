//! The top call as tables: which words are a command, which files are refused, which guests are
//! run, and what is kept of a run and of its source. What a run leaves on its ports stands in
//! `dr_plain_port_rows`.
#![tactic(auto)]

#[cfg(test)]
mod commands;
#[cfg(test)]
mod file_rows;
#[cfg(test)]
mod kept_rows;
#[cfg(test)]
mod source_rows;
#[cfg(test)]
mod word_rows;
