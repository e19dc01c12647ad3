//! How each command ends, by its status, and which inputs it takes without fail. They are laws of the
//! clauses of `tta_tool`, `tta_net_command` and `tta_inspect`, which say the same stage by stage; no
//! command stands on them. How the commands of `tta_inspect` end by their status is said there.
#![tactic(auto)]

mod laws;

pub use laws::{
    asm_by_status, asm_completes, build_by_status, build_completes, build_completes_without_room,
    check_by_status, check_completes, circuit_completes, cost_completes, debug_by_status,
    debug_completes, dis_by_status, dis_completes, exec_by_status, exec_completes,
    ifconv_by_status, ifconv_completes, info_completes, machine_view_completes, net_by_status,
    net_completes, net_text_by_status, net_text_completes, picture_completes, prompt_completes,
    run_by_status, run_completes, run_view_completes, sample_by_status, sample_completes,
    sample_completes_without_room, sample_halts, stages_completes, stages_completes_without_room,
};
