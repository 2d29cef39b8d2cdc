//! Rules that aren't broken make code fit: what holds of the expressions and statements of a set of files whose phrases break no rule of types or of locks.
//! `specs/` says what has to be known of the names that phrases use; what follows, and of which names it is known, is said in `laws`.
#![tactic(auto)]

mod laws;

pub use laws::{
    an_expression_that_breaks_no_rule_is_what_is_wanted,
    an_expression_whose_names_agree_has_the_sort_of_its_class, statements_of_a_known_unit_fit,
    statements_whose_names_agree_fit, the_call_forms_of_own_names_agree,
    the_events_of_an_image_agree, the_names_of_constants_agree, the_names_of_events_agree,
    the_names_of_functions_agree, the_names_of_own_data_agree, the_names_of_structures_agree,
    the_procedures_of_a_set_agree, the_statements_of_each_known_unit_fit,
};
