//! When a linked image is right, module by module: its rows and views, what names of parts and arguments lead to, and that the statements of its blocks fit.
#![tactic(auto)]

pub mod areas;
pub mod images;
pub mod paths;
pub mod rows;
pub mod spelled;
pub mod views;
