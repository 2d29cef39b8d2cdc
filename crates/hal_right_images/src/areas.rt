//! That the arguments of calls have the cells of their parameters.
//! `specs/` says what is left of data by subscripts and by names of parts; what holds of all images is said in `laws`.

mod laws;

pub use laws::arguments_have_the_cells_of_their_parameters;
