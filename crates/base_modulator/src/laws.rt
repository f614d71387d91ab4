//! Laws of scripts and of the plans that they name: each function does nothing, and its contract is
//! the law.

pub use script_laws::laws::{
    line_fault_is_the_first_that_no_script_has, line_faults_come_first, named_pages_are_carried,
    named_plan_is_lawful, numbers_have_one_spelling, written_script_names_its_plan,
};
pub use trial_link::laws::trial_scripts_are_lawful;
