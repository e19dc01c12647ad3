//! The circuit of a machine with its code, as a module of Verilog.
#![tactic(auto)]

mod buses;
mod bytes;
mod code_file;
mod coming;
mod control;
mod digit_lines;
mod dividing;
mod dues;
mod fields;
mod functions;
mod laws;
mod loads;
mod longs;
mod on;
mod pins;
mod pipes;
mod ports;
mod reach;
mod registers;
mod results;
mod rom;
mod shorts;
mod spaces;
mod starts;
mod states;
mod templates;
mod unit_wires;
mod whole;

pub use buses::{push_buses, push_is_code};
pub use bytes::code_bytes;
pub use code_file::write_code_file;
pub use coming::{push_coming, push_is_coming};
pub use control::{push_goes_test, push_leads, push_outcome, push_steering, start_wire};
pub use dues::{later_delays, push_all_dues};
pub use fields::push_fields;
pub use functions::{has_number, is_standard, push_function, push_functions};
pub use laws::{file_is_full, file_reads_alike, functions_are_circuits};
pub use loads::push_loads;
pub use longs::{push_has_template, writes};
pub use on::On;
pub use pins::{push_common_ports, push_if, push_in_ports, push_out_ports, push_shown};
pub use pipes::push_operand_port;
pub use ports::push_ports;
pub use reach::push_reached;
pub use registers::{push_kept, start_register};
pub use results::{
    loads_in, push_begins, push_first_word, push_fresh, push_new, push_result, shows_in,
};
pub use rom::Rom;
pub use spaces::push_empty_memory;
pub use starts::{OpWord, UnitWord, push_op_word, push_test, push_unit_word};
pub use states::{push_states, push_underway_name};
pub use unit_wires::push_units;
pub use whole::{
    Core, Module, first_words, offers, push_before, push_core, push_memories, push_registers,
    push_stores, push_wires, write_rtl,
};
