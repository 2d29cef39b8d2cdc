//! Constant expressions and the values of the constants of a set of files.
#![tactic(auto)]

mod constant;
mod constants;
mod known;
mod naming;
mod operands;
mod operation;
mod results;
mod rounds;
mod valued;

pub use constant::Constant;
pub use constants::{constant_of, operation_of_conversion, operation_of_sign, summed};
pub use known::Known;
pub use naming::{is_value_item, operation_of};
pub use operands::is_storable;
pub use operation::Operation;
pub use results::{whole, worse};
pub use valued::{
    kind_of, kind_of_item, kind_of_type, signed_literal, signed_name, size_of, size_of_integer,
};
