//! Worked examples of what the model is made of: changes, events, the start, definitions of properties. Each function here only names examples, or a law.
#![tactic(auto)]

mod changes;
mod events;
mod laws;
mod start;
mod validation;

pub use changes::{
    cells_are_set, constructions_are_told, lists_are_read, lists_grow, objects_are_made,
    objects_change, properties_come_and_go, slots_are_emptied, values_are_stored,
};
pub use events::{
    accesses_are_told, functions_are_told, indices_are_told, keys_are_told, kinds_are_told,
    values_are_told, values_have_classes,
};
pub use laws::storing_keeps_outlines;
pub use start::{
    constructors_are_so, errors_are_so, nothing_has_run, other_objects_are_so,
    texts_and_symbols_are_so, the_global_object_is_so,
};
pub use validation::{
    fields_change, fixed_properties_are_kept, kinds_change, new_properties_are_completed,
    no_field_is_wanted, verdicts_answer,
};
