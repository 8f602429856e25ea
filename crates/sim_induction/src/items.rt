//! The counts of items.
ghost use Rattle.std.specs.Prelude.{ℕ, ◌≡◌, ◌≤◌, get_or, IfOk};
ghost use Rattle.code_rules.specs.AppRange.{IsTaskCode};
ghost use Rattle.sim_induction.specs.Items.{length_of, AreLengths, served_counts, going_counts, leaving_counts};
ghost use Rattle.sim_induction.specs.Items.{ending_counts};

use code_lengths::{leaving_path, served_path};
use osek_blocking::chains_itself;
use rv32_expand::shortest;
use sloth_base::{App, Func, List, Op, Result, Service};
use std::alloc::Global;
use text_pieces::push;

/// The lengths of the items of each body.
#[derive(Drop)]
pub struct ItemLengths {
    pub bodies: List<List<u32>>,
}

/// Those of the items of all bodies, with the fewest long branches.
pub fn lengths(alloc: Global, app: &App) -> Result<ItemLengths>
    requires { IsTaskCode app.now }
    ensures are { IfOk result (λ lengths. AreLengths app.now lengths.bodies) }
    ensures short { IfOk result (λ lengths. (func item : ℕ) → length_of lengths.bodies func item ≤ 36) }
{
    let mut bodies = Vec::new(alloc);
    for body in app.funcs.items() {
        let own = shortest(alloc, app, body)?;
        push(&mut bodies, List::from_vec(own))?;
    }
    Ok(ItemLengths {
        bodies: List::from_vec(bodies),
    })
}

fn served_counts(served: Service) -> u32
    ensures is { result ≡ served_counts served }
    ensures short { result ≤ 86 }
{
    match served {
        Service::ChainTask => leaving_path(served, false),
        _ => served_path(served),
    }
}

/// What an operation adds to the length of its item where its task goes on.
pub fn going_counts(op: &Op) -> u32
    ensures is { result ≡ going_counts op.now }
    ensures short { result ≤ 86 }
{
    match op {
        Op::Serve(call) => served_counts(call.service),
        _ => 0,
    }
}

fn leaving_counts(func: &Func, op: &Op) -> u32
    ensures is { result ≡ leaving_counts func.now op.now }
    ensures short { result ≤ 86 }
{
    match op {
        Op::Serve(call) => leaving_path(call.service, chains_itself(func, *op)),
        _ => 0,
    }
}

/// The same where the task goes on or leaves with it.
pub fn ending_counts(func: &Func, op: &Op) -> u32
    ensures is { result ≡ ending_counts func.now op.now }
    ensures short { result ≤ 86 }
{
    going_counts(op).max(leaving_counts(func, op))
}

/// The length of an item.
pub fn length_of(lengths: &ItemLengths, func: usize, item: usize) -> u32
    ensures { result ≡ length_of lengths.now.bodies func item }
{
    match lengths.bodies.items().get(func) {
        Some(body) => item_length(body.items(), item),
        None => 0,
    }
}

fn item_length(body: &[u32], item: usize) -> u32
    ensures { result ≡ get_or body.now item 0 }
{
    match body.get(item) {
        Some(length) => *length,
        None => 0,
    }
}
