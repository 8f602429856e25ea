//! What a task holds as it enters a function, and its least current priority there, over all ways of calls.
//! The uses of a symbol: each access to it by each task that comes there.
ghost use Rattle.std.specs.Prelude.{◌≡◌, ◌<◌, ℕ, length, get_or, set, replicate, IfOk, ◌++◌, OnOk};
ghost use Rattle.shares_text.specs.Contexts.{no_call, no_context, through, joined, spread_all, start_context};
ghost use Rattle.shares_text.specs.Computed.{uses_by, uses_among};

use crate::sites::{Access, CallSite, Held};
use crate::verdict::entry;
use sloth_base::{List, Result};
use std::alloc::Global;
use text_pieces::push;

/// What is known of a task in a function: whether calls lead there, what it holds as it enters on each way, and its
/// least current priority there.
#[derive(Clone, Copy)]
pub struct Context {
    pub reached: bool,
    pub held: u64,
    pub least: u32,
}

/// Of one task, that of each function.
#[derive(Drop)]
pub struct Contexts {
    pub table: List<Context>,
}

/// Where no calls lead.
pub const NO_CONTEXT: Context = Context {
    reached: false,
    held: 0,
    least: 0,
};

/// The context of the function that is called at an item, from that of the function that calls it.
pub fn through(context: Context, held: Held) -> Context
    ensures { result ≡ through context held }
{
    Context {
        reached: context.reached,
        held: context.held | held.members,
        least: held.top.max(context.least),
    }
}

fn joined(one: Context, other: Context) -> Context
    ensures { result ≡ joined one other }
{
    if !other.reached {
        return one;
    }
    if !one.reached {
        return other;
    }
    Context {
        reached: true,
        held: one.held & other.held,
        least: other.least.min(one.least),
    }
}

// The table with the ways through these calls, in their order.
fn spread_all(table: &mut [Context], calls: &[CallSite])
    requires { (k : ℕ) → k < length calls.now → (get_or calls.now k no_call).callee < length table.old }
    ensures { table.new ≡ spread_all table.old calls.now }
{
    for call in calls {
        let entered = through(entry(table, call.caller, NO_CONTEXT), call.held);
        table[call.callee] = joined(entry(table, call.callee, NO_CONTEXT), entered);
    }
}

/// The contexts of a task: its body is entered at this priority, holding nothing, and the calls lead on from there.
pub fn body_contexts(
    alloc: Global,
    count: usize,
    calls: &[CallSite],
    body: usize,
    priority: u32,
) -> Result<Contexts>
    requires body { body < count }
    requires callees { (k : ℕ) → k < length calls.now → (get_or calls.now k no_call).callee < count }
    ensures { IfOk result (λ contexts. contexts.table
        ≡ spread_all (set (replicate count no_context) body (start_context priority)) calls.now) }
{
    let mut table = vec![in alloc; NO_CONTEXT; count]?;
    table[body] = Context {
        reached: true,
        held: 0,
        least: priority,
    };
    spread_all(&mut table, calls);
    Ok(Contexts {
        table: List::from_vec(table),
    })
}

/// An access of a task: what the task holds there on each way of calls, and its least current priority.
#[derive(Clone, Copy)]
pub struct Use {
    pub task: usize,
    pub func: usize,
    pub item: usize,
    pub line: u32,
    pub stores: bool,
    pub held: u64,
    pub least: u32,
}

fn add_uses(uses: &mut Vec<Use>, access: &Access, tasks: &[Contexts]) -> Result<()>
    ensures { OnOk result (uses.new.items ≡ uses.old.items ++ uses_by access.now 0 tasks.now) }
{
    for (task, contexts) in tasks.iter().enumerate() {
        let context = entry(contexts.table.items(), access.func, NO_CONTEXT);
        let here = through(context, access.held);
        let used = Use {
            task,
            func: access.func,
            item: access.item,
            line: access.line,
            stores: access.stores,
            held: here.held,
            least: here.least,
        };
        if context.reached {
            push(uses, used)?;
        }
    }
    Ok(())
}

/// The uses of a symbol.
pub fn uses(alloc: Global, accesses: &[Access], tasks: &[Contexts], symbol: u32) -> Result<Vec<Use>>
    ensures { IfOk result (λ uses. uses.items ≡ uses_among tasks.now symbol accesses.now) }
{
    let mut uses = Vec::new(alloc);
    for access in accesses {
        if access.symbol == symbol {
            add_uses(&mut uses, access, tasks)?;
        }
    }
    Ok(uses)
}
