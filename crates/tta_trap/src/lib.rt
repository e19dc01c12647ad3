//! A machine with its code as a circuit that tells the first fault, and stops there.
#![tactic(auto)]

mod laws;

pub use laws::{
    knows_on, tells_faults, trap_filled_runs, trap_filled_shows, trap_holds_code, trap_image_runs,
    trap_is_closed, trap_is_plain, trap_names_differ, trap_pins_serve, trap_runs,
    trap_stands_still, trap_stays, trap_words_stay,
};
