//! Data that tasks share, and what keeps their accesses apart: exact verdicts on all symbols, which runs keep
//! (`data_verdicts`). Uses: `specs/Accesses`; verdicts: `specs/Verdicts`; what they promise of runs: `specs/RunLaws`.
//! The lines of all symbols, from the texts.
ghost use Rattle.std.specs.Prelude.{◌≡◌, ◌<◌, [], length, IfOk, ◌≤◌, ◌++◌, codes, get_or, IfErr, OnOk};
ghost use Rattle.sloth_base.specs.Limits.{ceiling_count, task_limit};
ghost use Rattle.sloth_base.specs.declared.app.App.{App as AnyApp};
ghost use Rattle.code_rules.specs.WellFormed.{WellFormed};
ghost use Rattle.osek_scheduler.specs.Priority.{highest_priority};
ghost use Rattle.call_graph.specs.Ranks.{RanksOf};
ghost use Rattle.osek_blocking.specs.Sections.{priority_at};
ghost use Rattle.shares_text.specs.Sites.{AreAllHeld};
ghost use Rattle.walk_sums.specs.Ceilings.{AreResourceCeilings};
ghost use Rattle.shares_text.specs.Tables.{AreAccesses, AreCalls, AreAllContexts};
ghost use Rattle.shares_text.specs.Verdicts.{AreVerdicts};
ghost use Rattle.shares_text.specs.RunLaws.{RunsKeepApart};
ghost use Rattle.sloth_source.specs.Texts.{SourcesErrorIs};
ghost use Rattle.shares_text.specs.SharesText.{IsSharesText, verdict_words, share_lines};

use crate::contexts::{Contexts, body_contexts, uses};
use crate::lines::push_verdict;
use crate::sites::{Access, CallSite, HeldRow, all_accesses, all_calls, all_held, callers_first};
use crate::verdict::{Verdict, judge};
use call_graph::Ranks;
use osek_scheduler::highest;
use sloth_base::{App, BuildError, Config, List, Result};
use sloth_source::read_checked;
use stack_bounds::body_of;
use std::alloc::Global;
use task_verify::Verified;
use text_pieces::pieces::Piece::Word;
use text_pieces::{line, push};
use walk_sums::bodies::ceilings;

// The current priority of a task that holds nothing.
fn base_priority(config: &Config, highest: u32, task: usize) -> u32
    requires inside { task < length config.now.tasks }
    requires highest { highest ≡ highest_priority config.now }
    ensures { (app : AnyApp) → result ≡ priority_at config.now app task [] }
{
    let declared = &config.tasks.items()[task];
    if declared.non {
        highest.max(declared.priority)
    } else {
        declared.priority
    }
}

// The contexts of all tasks.
fn all_ways(alloc: Global, config: &Config, app: &App, calls: &[CallSite]) -> Result<Vec<Contexts>>
    requires well_formed { WellFormed config.now app.now }
    requires calls { AreCalls config.now app.now calls.now }
    ensures { IfOk result (λ tasks. AreAllContexts config.now app.now tasks.items) }
{
    let top = highest(config);
    let funcs = app.funcs.items();
    let mut tasks = Vec::new(alloc);
    for task in 0..config.tasks.items().len() {
        let body = body_of(funcs, task);
        let priority = base_priority(config, top, task);
        let table = body_contexts(alloc, funcs.len(), calls, body, priority)?;
        push(&mut tasks, table)?;
    }
    Ok(tasks)
}

fn verdicts(
    alloc: Global,
    config: &Config,
    app: &App,
    ceilings: &[u32],
    accesses: &[Access],
    tasks: &[Contexts],
) -> Result<Vec<Verdict>>
    requires well_formed { WellFormed config.now app.now }
    requires many { length ceilings.now ≡ ceiling_count }
    requires ceilings { AreResourceCeilings config.now ceilings.now }
    requires accesses { AreAccesses config.now app.now accesses.now }
    requires contexts { AreAllContexts config.now app.now tasks.now }
    ensures { IfOk result (λ list. AreVerdicts config.now app.now list.items) }
{
    let mut list = Vec::new(alloc);
    for symbol in 0..app.symbols.items().len() {
        let uses = uses(alloc, accesses, tasks, symbol as u32)?;
        let verdict = judge(alloc, config.tasks.items(), ceilings, &uses)?;
        push(&mut list, verdict)?;
    }
    Ok(list)
}

fn code_verdicts(
    alloc: Global,
    config: &Config,
    app: &App,
    ranks: &Ranks,
    ceilings: &[u32],
    table: &[HeldRow],
) -> Result<Vec<Verdict>>
    requires well_formed { WellFormed config.now app.now }
    requires belong { RanksOf app.now ranks.now }
    requires many { length ceilings.now ≡ ceiling_count }
    requires ceilings { AreResourceCeilings config.now ceilings.now }
    requires table { AreAllHeld config.now app.now table.now }
    ensures { IfOk result (λ list. AreVerdicts config.now app.now list.items) }
{
    let funcs = app.funcs.items();
    let calls = all_calls(alloc, funcs, table)?;
    let ordered = callers_first(alloc, ranks.rank.items(), &calls)?;
    let accesses = all_accesses(alloc, funcs, table)?;
    let tasks = all_ways(alloc, config, app, &ordered)?;
    verdicts(alloc, config, app, ceilings, &accesses, &tasks)
}

/// What keeps the users of each symbol apart, in the order of the symbols.
pub fn data_verdicts(alloc: Global, verified: &Verified, ranks: &Ranks) -> Result<List<Verdict>>
    requires { RanksOf verified.now.app ranks.now }
    ensures exact { IfOk result (AreVerdicts verified.now.config verified.now.app) }
    ensures kept { IfOk result (RunsKeepApart verified.now.config verified.now.app) }
{
    let config = verified.config();
    let app = verified.app();
    let ceilings = ceilings(alloc, config)?;
    let table = all_held(alloc, config, &ceilings, app)?;
    let list = code_verdicts(alloc, config, app, ranks, &ceilings, &table)?;
    Ok(List::from_vec(list))
}

fn numbered_verdict(verdicts: &[Verdict], number: usize) -> &Verdict
    requires { number < length verdicts.now }
    ensures { result.now ≡ get_or verdicts.now number Verdict.Unused }
{
    &verdicts[number]
}

fn push_line(text: &mut Vec<u8>, config: &Config, name: &[u8], verdict: &Verdict) -> Result<()>
    requires { length config.now.tasks ≤ task_limit }
    ensures { OnOk result (text.new.items ≡ text.old.items
        ++ ((name.now ++ verdict_words config.now verdict.now) ++ codes "\n")) }
{
    text.extend_from_slice(name)?;
    push_verdict(text, config, verdict)?;
    line!(text; Word(b"\n"))
}

fn share_lines(alloc: Global, config: &Config, app: &App, verdicts: &[Verdict]) -> Result<Vec<u8>>
    requires few { length config.now.tasks ≤ task_limit }
    requires same { length verdicts.now ≡ length app.now.symbols }
    ensures { IfOk result (λ text. text.items ≡ share_lines config.now app.now verdicts.now (length app.now.symbols)) }
{
    let mut text = Vec::new(alloc);
    for number in 0..app.symbols.items().len() {
        let verdict = numbered_verdict(verdicts, number);
        push_line(&mut text, config, app.symbol_name(number), verdict)?;
    }
    Ok(text)
}

/// The lines of what keeps the users of each symbol apart, of texts of at most 4,294,967,294 bytes; or the first
/// refusal (O1 to O15, A1 to A7, V1 to V12).
pub fn shares_text(alloc: Global, oil: &[u8], src: &[u8]) -> Result<Vec<u8>, BuildError>
    requires oil { length oil.now < 4294967295 }
    requires src { length src.now < 4294967295 }
    ensures text { IfOk result (λ text. IsSharesText oil.now src.now text.items) }
    ensures refused { IfErr result (SourcesErrorIs oil.now src.now) }
{
    let checked = read_checked(alloc, oil, src)?;
    let verified = &checked.verified;
    let verdicts = data_verdicts(alloc, verified, &checked.ranks)?;
    let text = share_lines(alloc, verified.config(), verified.app(), verdicts.items())?;
    Ok(text)
}
