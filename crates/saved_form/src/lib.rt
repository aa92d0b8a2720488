// The saved form of an account: which numbers stand in a file, in which order, and what each may be.
#![tactic(auto)]

mod field;
mod values;

pub use field::{
    FORM, Field, HEAD_FIELDS, Kind, POSITION_COUNT, POSITION_FIELDS, allows, nth_field, stands,
};
pub use values::{account_of, head_values};
