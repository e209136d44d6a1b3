// Laws of the definitions, each proved by the function of its name.

mod arithmetic_laws;
mod effects;
mod examples;
mod isolation;
mod run_laws;
mod soundness_laws;

pub use arithmetic_laws::{
    arithmetic_shift_keeps_sign, bytes_spell_numbers, division_by_zero, division_is_euclidean,
    extension_keeps_small, extension_keeps_value, least_by_minus_one, move_zeroes_upper_half,
    negation_subtracts, results_fit, shift_amounts_wrap, signed_division_truncates,
    subtraction_undoes_addition, swaps_undo_themselves,
};
pub use effects::{effects_are_runs, typable_programs_take_effect};
pub use examples::{map_programs_run, programs_run, tables_hold};
pub use isolation::{other_maps_are_unseen, other_maps_stay};
pub use run_laws::{
    bytes_end_spills, exits_are_final, runs_are_unique, runs_keep_shapes, spills_are_loaded,
    steps_are_unique, steps_keep_states, stores_are_loaded,
};
pub use soundness_laws::{accepted_programs_run, typable_programs_run};
