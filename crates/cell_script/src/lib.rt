//! Scripts of cells: lines of text that specify what a cell sends and how the link changes it.
//!
//! Each line is a statement and ends with LF. `cell`, `link`, `pilot` and optionally `sync` come
//! first, in this order. After `sync` come any number of `paging` lines, each followed by one or
//! more `page` lines. Then come any number of `traffic` lines, each followed by one or more `frame`
//! lines or one or more `frame2` lines.
//!
//! A script is read twice: first its statements are checked in order, without allocating; then,
//! only if there is no fault, its plan is made.
#![tactic(auto)]

mod build;
mod fields;
mod judge;
mod reading;
mod script_fault;
mod spelling;
pub mod stage;
pub mod statements;
pub mod tables;
mod writing;

pub use reading::plan_of;
pub use script_fault::ScriptFault;
pub use writing::script_text;
