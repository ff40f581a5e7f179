//! What the names in a program's instructions stand for, by number: classes, fields, methods, selectors and types, and
//! the tables of a program that its turns read by these numbers (JVMS 5.4).
#![tactic(auto)]

pub mod class_numbers;
pub mod class_tables;
pub mod first_places;
pub mod initializers;
pub mod member_places;
pub mod method_tables;
pub mod named_methods;
mod narrowing;
mod numbered_operations;
pub mod numbering;
pub mod offsets;
pub mod operations;
pub mod own_methods;
pub mod plain_operations;
pub mod resolved_operations;
pub mod selection;
pub mod selection_rows;
pub mod selector_arguments;
pub mod selectors;
pub mod static_slots;
pub mod storages;
pub mod tables;
pub mod type_numbers;
