//! The least source lines at which tasks come to what counts.
ghost use Rattle.std.specs.Prelude.{◌≡◌, ◌==◌, ◌<◌, ℕ, length, IfOk};
ghost use Rattle.sloth_base.specs.Named.{body_of};
ghost use Rattle.code_rules.specs.Code.{HasCall};
ghost use Rattle.run_windows.specs.RunWindows.{IsLeastOf, call_path, services_front};
ghost use Rattle.sloth_base.specs.declared.service.Service.TheVariants as service;
ghost use Rattle.walk_sums.specs.declared.counted.Counted.TheVariants as counts;
ghost use Rattle.response_reasons.specs.LoopCode.{line_at};
ghost use Rattle.response_reasons.specs.Calls.{item_line, server_line, IsCallLine, AreCallLines};
ghost use Rattle.response_reasons.specs.Calls.{HasServer, HasLongestServer, HasCodedServer};
ghost use Rattle.response_reasons.specs.Calls.{HasFreeServer, HasActivator, IsServiceLine, StartsInside};

use crate::loops::{Line, no_lines, numbered_line};
use bound_rules::{Body, is_marked};
use run_windows::level::{lesser, may_serve, services_front};
use run_windows::{Costs, Start, call_path};
use sloth_base::{Func, Op, Result, Service};
use walk_sums::{Counted, Walks, is_ending_counted, numbered_body, numbered_function};

// Of an item, where walks reach it, by those of the functions.
fn item_line(counted: Counted, func: &Func, body: &Body, lines: &[Line], number: usize) -> Line
    requires { number < length func.now.items }
    ensures { result ≡ item_line counted func.now body.now lines.now number }
{
    if !is_marked(body.reached.items(), number) {
        return None;
    }
    let item = &func.items.items()[number];
    match item.op {
        Op::Invoke { func } => numbered_line(lines, func.0 as usize),
        _ if is_ending_counted(counted, item.op) => Some(item.line),
        _ => None,
    }
}

// Of a function, by those that it calls.
fn function_line(walks: &Walks, counted: Counted, lines: &[Line], number: usize) -> Line
    requires known { number < length walks.now.app.funcs }
    requires called { (g : ℕ) → HasCall walks.now.app number g
        → IsCallLine walks.now.app counted g (line_at lines.now g) }
    ensures { IsCallLine walks.now.app counted number result }
{
    let func = numbered_function(walks.app(), number);
    let body = numbered_body(walks.bodies(), number);
    let mut least = None;
    for item in 0..func.items.items().len() {
        least = lesser(least, item_line(counted, func, body, lines, item));
    }
    least
}

fn function_lines(walks: &Walks, counted: Counted) -> Result<Vec<Line>>
    ensures { IfOk result (λ lines. AreCallLines walks.now.app counted lines.items) }
{
    let mut lines = no_lines(walks.alloc(), walks.app().funcs.items().len())?;
    for number in walks.order() {
        let line = function_line(walks, counted, &lines, *number);
        lines[*number] = line;
    }
    Ok(lines)
}

// Of a task that may serve in front of a window of h, by those of the functions.
fn server_line(walks: &Walks, costs: &Costs, h: usize, lines: &[Line], k: usize) -> Line
    requires { k < length walks.now.config.tasks }
    ensures { result ≡ server_line walks.now.app costs.now h lines.now k }
{
    if may_serve(costs, h, k) {
        numbered_line(lines, walks.body(k))
    } else {
        None
    }
}

fn serving_line(walks: &Walks, costs: &Costs, h: usize, counted: Counted) -> Result<Line>
    ensures { IfOk result (IsLeastOf (HasServer walks.now.config walks.now.app costs.now h counted)) }
{
    let lines = function_lines(walks, counted)?;
    let mut least = None;
    for k in 0..walks.tasks() {
        least = lesser(least, server_line(walks, costs, h, &lines, k));
    }
    Ok(least)
}

// Whether no service that such a task reaches has a longer path.
fn is_longest(costs: &Costs, h: usize, service: Service) -> bool
    ensures { result ≡ (call_path service == services_front costs.now h 0 costs.now.tasks) }
{
    call_path(service) == services_front(costs, h)
}

// Of a service, if it is one of the longest.
fn longest_line(walks: &Walks, costs: &Costs, h: usize, service: Service) -> Result<Line>
    ensures { IfOk result (IsLeastOf (HasLongestServer walks.now.config walks.now.app costs.now h service)) }
{
    if is_longest(costs, h, service) {
        serving_line(walks, costs, h, Counted::Calls(service))
    } else {
        Ok(None)
    }
}

fn coded_line(walks: &Walks, costs: &Costs, h: usize, code: u8) -> Result<Line>
    ensures { IfOk result (IsLeastOf (HasCodedServer walks.now.config walks.now.app costs.now h code)) }
{
    match Service::from_code(code) {
        Some(service) => longest_line(walks, costs, h, service),
        None => Ok(None),
    }
}

fn free_line(walks: &Walks, costs: &Costs, h: usize) -> Result<Line>
    ensures { IfOk result (IsLeastOf (HasFreeServer walks.now.config walks.now.app costs.now h)) }
{
    let mut least = None;
    for code in 0..16 {
        let line = coded_line(walks, costs, h, code)?;
        least = lesser(least, line);
    }
    Ok(least)
}

// A ChainTask of the task, or else an ActivateTask.
fn activating_line(walks: &Walks, costs: &Costs, h: usize, j: usize) -> Result<Line>
    requires small { j < 4294967296 }
    ensures { IfOk result (IsLeastOf (HasActivator walks.now.config walks.now.app costs.now h j)) }
{
    let chained = serving_line(walks, costs, h, Counted::Chains(j as u32))?;
    match chained {
        Some(line) => Ok(Some(line)),
        None => {
            let counted = Counted::CallsFor(Service::ActivateTask, j as u32);
            serving_line(walks, costs, h, counted)
        }
    }
}

fn setting_line(walks: &Walks, costs: &Costs, h: usize, j: usize) -> Result<Line>
    requires small { j < 4294967296 }
    ensures { IfOk result (IsLeastOf (HasServer walks.now.config walks.now.app costs.now h (counts.Settings j))) }
{
    serving_line(walks, costs, h, Counted::Settings(j as u32))
}

fn raising_line(walks: &Walks, k: usize) -> Result<Line>
    requires { k < length walks.now.config.tasks }
    ensures { IfOk result
        (IsCallLine walks.now.app (counts.Calls service.GetResource) (body_of walks.now.app.funcs k)) }
{
    let lines = function_lines(walks, Counted::Calls(Service::GetResource))?;
    Ok(numbered_line(&lines, walks.body(k)))
}

/// The least source line of the service in front of the windows of a start.
pub fn service_line(walks: &Walks, costs: &Costs, h: usize, start: Start) -> Result<Line>
    requires inside { StartsInside (length walks.now.config.tasks) start }
    requires small { length walks.now.config.tasks < 4294967296 }
    ensures { IfOk result (IsServiceLine walks.now.config walks.now.app costs.now h start) }
{
    match start {
        Start::Free => free_line(walks, costs, h),
        Start::Boot | Start::Round(_) => Ok(None),
        Start::Activation(j) => activating_line(walks, costs, h, j),
        Start::Setting(j) => setting_line(walks, costs, h, j),
        Start::Section(k) => raising_line(walks, k),
    }
}
