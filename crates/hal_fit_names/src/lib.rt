//! What the rules say of the names of units is what their code wants: what follows from rules of names and types that a set doesn't break for its constant
//! expressions and for what it declares. `specs/` says when a constant suits its expression; what follows is said in `laws`.
#![tactic(auto)]

mod laws;

pub use laws::{
    call_forms_agree, calls_agree, channels_have_right_operands,
    constant_expressions_suit_their_classes, constants_have_values,
    data_of_written_templates_stand_for_those_of_units, declared_data_are_known,
    events_that_are_changed_agree, input_parameters_are_declared, kinds_of_cells_are_known,
    names_of_no_template_are_own, names_of_receivers_agree, names_of_values_agree,
    results_of_functions_are_known, templates_of_called_units_stand_for_them,
    temporary_variables_mean_themselves, units_are_known_where_what_is_left_is, units_have_bodies,
    units_that_may_be_called_are_known,
};
