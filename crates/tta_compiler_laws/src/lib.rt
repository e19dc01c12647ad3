//! What the parts of the compiler prove together: when lists of moves may be placed for those that
//! are selected, what is planned, what packed code is, and the laws that lead from register code to
//! code that agrees with its program. It has no body but those of its laws.
#![tactic(auto)]

mod laws;

pub use laws::{
    direct_agrees, direct_is_list, direct_links, direct_lowers, direct_means, lists_agree,
    lists_fit, lists_link, lists_mean, lists_planned, one_counts, one_flow, one_liveness,
    one_slots, optimised_stand, selected_stand,
};
