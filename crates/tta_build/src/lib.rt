//! The compiler: code for a machine that does what a program does. It calls the compiler's passes
//! in their order, and holds the steps between them: which needs of a program no unit offers, direct
//! pairs, the candidates of each block and which of their placements stays, which of two ways of
//! giving home registers stays, code from placements, and a program's data in order. What the
//! passes prove together stands in `tta_compiler_laws`.
#![tactic(auto)]

mod best_candidate;
mod candidates;
mod converted;
mod covered_code;
mod data_order;
mod direct;
mod direct_pair;
mod error;
mod inner_loops;
mod keeping;
mod laws;
mod least;
mod linking;
mod needs;
mod placed_program;
mod placing;
mod program;
mod pushing;
mod register;
mod rounds;
mod second_round;
mod trail;
mod value;
mod ways;

pub use best_candidate::Planned;
pub use converted::build_with;
pub use data_order::data_in_order;
pub use direct_pair::is_direct;
pub use error::BuildError;
pub use keeping::beside;
pub use laws::{
    build_completes, build_completes_plainly, causes_exclude, code_excludes, compiled_is_short,
    converted_agrees, full_excludes,
};
pub use linking::link_placed;
pub use needs::unoffered;
pub use placed_program::{FEW_STEPS, is_small, total_length};
pub use placing::place_all;
pub use program::{Built, build, compile};
pub use register::{Analysed, Lowered, RegisterOrder, homes_by};
pub use trail::{Derivation, Order, Ordered, Round, Rounds, Start};
pub use value::Compiled;
