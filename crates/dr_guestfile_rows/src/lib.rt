//! The grammar of a guest file as tables: texts that are read, and texts that are refused. Those of
//! the ops stand in `dr_guestfile_op_rows`.
#![tactic(auto)]

#[cfg(test)]
mod limit_rows;
#[cfg(test)]
mod section_rows;
#[cfg(test)]
mod settings_rows;
#[cfg(test)]
mod slot_rows;
#[cfg(test)]
mod text_rows;
#[cfg(test)]
mod worked_rows;
