//! What holds of the values that operations, stores and components give: they are right, and of the kinds that are wanted.
//! The laws run nothing; each says it of the whole table.
#![tactic(auto)]

mod laws;

pub use laws::{
    cells_hold_values_of_their_kinds, operations_give_right_values,
    operations_give_values_of_their_kinds, parts_are_right_values, replaced_parts_keep_kinds,
    right_values_have_kinds,
};
