//! The verifier: V2 to V12 judged exactly, and task code that keeps them.
//! `verify`: the least of V2 to V12, or both, which are well formed (`Verified`, `specs/Accepted`). The rules, in
//! parts: `specs/Cases`, `specs/Tests`, `specs/Ways`, `specs/Labels`.
#![tactic(auto)]

ghost use Rattle.std.specs.Prelude.{◌≡◌, IfErr, IfOk, OnOk};
ghost use Rattle.sloth_base.specs.Order.{NoFault, ErrorIs};
ghost use Rattle.code_rules.specs.AppRange.{AppInRange};
ghost use Rattle.code_rules.specs.WellFormed.{RuleFault};
ghost use Rattle.call_graph.specs.Ranks.{RanksOf};

// A fault of this code at the line of an item, a label or a body, where the test says so.
macro_rules! line_fault {
    ($place:ident; $code:ident if $test:expr) => {
        fault_if($test, Part::Src, $place.line, Code::$code)
    };
}

pub mod bodies;
pub mod held_resources;
pub mod items;
pub mod labels;
pub mod verified;
pub mod ways;

use crate::bodies::judge;
pub use bodies::{Verdict, is_fallen_into};
use call_graph::Ranks;
pub use held_resources::{
    held_after, held_at_label, held_by, is_held, is_leave_with_resource, is_other_list_jump,
    is_second_take, is_undeclared_use, is_wrong_release,
};
pub use items::{is_access_past, is_mask_past, is_uneven, item_faults};
pub use labels::last_labels;
use sloth_base::{App, BuildError, Config};
use std::alloc::Global;
pub use verified::Verified;
pub use ways::{falls, is_run_out, is_wrong_leave, jump_of, next_of, reached, way};

/// A configuration and its task code, where no rule of V2 to V12 has a fault; else the least fault.
pub fn verify(
    alloc: Global,
    config: Config,
    app: App,
    ranks: &Ranks,
) -> Result<Verified, BuildError>
    requires in_range { AppInRange config app }
    requires belong { RanksOf app ranks.now }
    ensures accepted { IfOk result (λ verified. verified ≡ record { config = config; app = app }) }
    ensures none { OnOk result (NoFault (RuleFault config app)) }
    ensures refused { IfErr result (ErrorIs (RuleFault config app)) }
{
    match judge(alloc, &config, &app, ranks)? {
        Some(refusal) => Err(BuildError::Refused(refusal)),
        None => Ok(Verified::new(config, app)),
    }
}
