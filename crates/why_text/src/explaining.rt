//! The lines behind a refusal. What the command `why` answers. The events that a statement names.
ghost use Rattle.std.specs.Prelude.{◌≡◌, ◌<◌, ◌≤◌, ◌⊎◌, length, [], Some, IfOk, IfSome, IfNone};
ghost use Rattle.sloth_base.specs.declared.config.Config.{Config};
ghost use Rattle.sloth_base.specs.Named.{function};
ghost use Rattle.sloth_base.specs.ConfigRange.{InRange};
ghost use Rattle.code_rules.specs.AppRange.{AppInRange};
ghost use Rattle.call_graph.specs.Ranks.{RanksOf};
ghost use Rattle.sloth_source.specs.OilText.{OilText};
ghost use Rattle.sloth_source.specs.SourceText.{HasApp};
ghost use Rattle.sloth_source.specs.RankedTexts.{HasRanks};
ghost use Rattle.why_text.specs.WhyLines.{TellsFault, TellsNames, TellsCycle, IsCycleOn, HasCycleIn, HasWitnessLines};
ghost use Rattle.why_text.specs.WhyLines.{code_cause, lines_limit, AreWhyLines, IsWhy};

use crate::naming::{forms_text, names_text, oil_text};
use crate::rule_lines::{push_calls, push_place};
use asm_lines::{SourceLine, read_lines};
use asm_parse::parse_app;
use asm_scopes::{Kind, kind_of, written};
use call_graph::Ranks;
use fault_witnesses::{cycle_calls, fault_witness};
use sloth_base::{App, BuildError, Code, Config, List, NoMemory, Refusal, Result};
use sloth_source::{Ranked, read, read_config, read_ranked};
use std::alloc::Global;
use text_pieces::{push, same};

// The lines that were found, if some were.
type Found = Result<Option<List<u8>>>;

fn no_lines(alloc: Global) -> List<u8>
    ensures { result ≡ [] }
{
    List::from_vec(Vec::new(alloc))
}

fn text_config(alloc: Global, oil: &[u8]) -> Result<Option<Config>>
    requires { length oil.now < 4294967295 }
    ensures means { IfOk result (λ found. IfSome found (OilText oil.now)) }
    ensures none { IfOk result (λ found. IfNone found ((config : Config) → OilText oil.now config → ⊥)) }
    ensures in_range { IfOk result (λ found. IfSome found InRange) }
{
    match read_config(alloc, oil) {
        Ok(config) => Ok(Some(config)),
        Err(BuildError::Refused(_)) => Ok(None),
        Err(BuildError::Memory) => Err(NoMemory),
    }
}

fn name_lines(alloc: Global, oil: &[u8], src: &[u8], refusal: Refusal) -> Result<List<u8>>
    requires oil { length oil.now < 4294967295 }
    requires src { length src.now < 4294967295 }
    ensures { IfOk result (TellsNames oil.now src.now) }
{
    match text_config(alloc, oil)? {
        Some(config) => names_text(alloc, &config, src, refusal),
        None => Ok(no_lines(alloc)),
    }
}

fn body_on_line(app: &App, line: u32) -> Option<usize>
    ensures known { IfSome result (λ b. b < length app.now.funcs) }
    ensures line { IfSome result (λ b. line ≡ (function app.now b).line) }
{
    for number in 0..app.funcs.items().len() {
        if app.function(number).line == line {
            return Some(number);
        }
    }
    None
}

fn cycle_on_line(alloc: Global, app: &App, line: u32) -> Found
    ensures { IfOk result (λ found. IfSome found (λ lines. IsCycleOn app.now line lines)) }
{
    let Some(body) = body_on_line(app, line) else {
        return Ok(None);
    };
    match cycle_calls(alloc, app, body)? {
        Some(links) => {
            let mut text = Vec::new(alloc);
            let name = app.function_name(body);
            let header = app.function_line(body);
            push_calls(&mut text, app, name, header, links.items(), None)?;
            Ok(Some(List::from_vec(text)))
        },
        None => Ok(None),
    }
}

fn text_app(alloc: Global, config: &Config, src: &[u8]) -> Result<Option<App>>
    requires src { length src.now < 4294967295 }
    requires config { InRange config.now }
    ensures { IfOk result (λ found. IfSome found (HasApp src.now config.now)) }
{
    match parse_app(alloc, src, config) {
        Ok(app) => Ok(Some(app)),
        Err(BuildError::Refused(_)) => Ok(None),
        Err(BuildError::Memory) => Err(NoMemory),
    }
}

fn source_cycle(alloc: Global, src: &[u8], config: &Config, line: u32) -> Found
    requires src { length src.now < 4294967295 }
    requires config { InRange config.now }
    ensures { IfOk result (λ found. IfSome found (λ lines. HasCycleIn src.now config.now line lines)) }
{
    match text_app(alloc, config, src)? {
        Some(app) => cycle_on_line(alloc, &app, line),
        None => Ok(None),
    }
}

fn refusal_cycle(alloc: Global, oil: &[u8], src: &[u8], refusal: Refusal) -> Found
    requires oil { length oil.now < 4294967295 }
    requires src { length src.now < 4294967295 }
    ensures { IfOk result (λ found. IfSome found (TellsCycle oil.now src.now refusal)) }
{
    match text_config(alloc, oil)? {
        Some(config) => source_cycle(alloc, src, &config, refusal.line),
        None => Ok(None),
    }
}

/// The lines that tell a fault of this task code of V2 to V12, of at most 4,294,967,294 bytes of source.
pub fn told_fault(
    alloc: Global,
    src: &[u8],
    config: &Config,
    app: &App,
    ranks: &Ranks,
    refusal: Refusal,
) -> Found
    requires src { length src.now < 4294967295 }
    requires in_range { AppInRange config.now app.now }
    requires belong { RanksOf app.now ranks.now }
    ensures { IfOk result (λ found. IfSome found (λ text. HasWitnessLines config.now app.now refusal text)) }
{
    let events = named_events(alloc, config, src, refusal.line)?;
    match fault_witness(alloc, config, app, ranks, refusal, &events)? {
        Some(witness) => {
            let mut text = Vec::new(alloc);
            push_place(alloc, &mut text, config, app, refusal.code, &witness)?;
            Ok(Some(List::from_vec(text)))
        },
        None => Ok(None),
    }
}

/// What both texts mean, of at most 4,294,967,294 bytes each, if no rule up to V1 is broken.
pub fn ranked_texts(alloc: Global, oil: &[u8], src: &[u8]) -> Result<Option<Ranked>>
    requires oil { length oil.now < 4294967295 }
    requires src { length src.now < 4294967295 }
    ensures has_ranks { IfOk result
        (λ found. IfSome found (λ ranked. HasRanks oil.now src.now ranked.config ranked.app)) }
    ensures in_range { IfOk result (λ found. IfSome found (λ ranked. AppInRange ranked.config ranked.app)) }
    ensures belong { IfOk result (λ found. IfSome found (λ ranked. RanksOf ranked.app ranked.ranks)) }
{
    match read_ranked(alloc, oil, src) {
        Ok(ranked) => Ok(Some(ranked)),
        Err(BuildError::Refused(_)) => Ok(None),
        Err(BuildError::Memory) => Err(NoMemory),
    }
}

fn refusal_fault(alloc: Global, oil: &[u8], src: &[u8], refusal: Refusal) -> Found
    requires oil { length oil.now < 4294967295 }
    requires src { length src.now < 4294967295 }
    ensures { IfOk result (λ found. IfSome found (TellsFault oil.now src.now refusal)) }
{
    match ranked_texts(alloc, oil, src)? {
        Some(Ranked { config, app, ranks }) => {
            told_fault(alloc, src, &config, &app, &ranks, refusal)
        },
        None => Ok(None),
    }
}

// The most bytes of the lines of a cycle or of a fault of task code.
const LINES_LIMIT: usize = 1_073_741_824;

#[derive(Clone, Copy)]
enum Cause {
    Nothing,
    OilName,
    SourceForm,
    SourceName,
    Cycle,
    Rule,
}

fn code_cause(code: Code) -> Cause
    ensures { result ≡ code_cause code }
{
    match code {
        Code::O7 | Code::O8 | Code::O9 | Code::O10 | Code::O11 => Cause::OilName,
        Code::O12 | Code::O13 | Code::O14 | Code::O15 => Cause::OilName,
        Code::A1 | Code::A2 | Code::A3 | Code::A4 => Cause::SourceForm,
        Code::A5 | Code::A6 | Code::A7 => Cause::SourceName,
        Code::V1 => Cause::Cycle,
        Code::V2 | Code::V3 | Code::V4 | Code::V5 | Code::V6 | Code::V7 => Cause::Rule,
        Code::V8 | Code::V9 | Code::V10 | Code::V11 | Code::V12 => Cause::Rule,
        _ => Cause::Nothing,
    }
}

// The lines that were found, if they are no more than a gigabyte, or none.
fn few_lines(alloc: Global, found: Option<List<u8>>) -> List<u8>
    ensures { (result ≡ []) ⊎ ((found ≡ Some result) × (length result ≤ lines_limit)) }
{
    match found {
        Some(lines) if lines.items().len() <= LINES_LIMIT => lines,
        _ => no_lines(alloc),
    }
}

/// The lines behind the first refusal of texts of at most 4,294,967,294 bytes.
pub fn lines_behind(alloc: Global, oil: &[u8], src: &[u8], refusal: Refusal) -> Result<List<u8>>
    requires oil { length oil.now < 4294967295 }
    requires src { length src.now < 4294967295 }
    ensures { IfOk result (AreWhyLines oil.now src.now refusal) }
{
    match code_cause(refusal.code) {
        Cause::OilName => oil_text(alloc, oil, refusal),
        Cause::SourceForm => forms_text(alloc, src, refusal),
        Cause::SourceName => name_lines(alloc, oil, src, refusal),
        Cause::Cycle => Ok(few_lines(alloc, refusal_cycle(alloc, oil, src, refusal)?)),
        Cause::Rule => Ok(few_lines(alloc, refusal_fault(alloc, oil, src, refusal)?)),
        Cause::Nothing => Ok(no_lines(alloc)),
    }
}

/// What is said of a configuration and its task code.
#[derive(Drop)]
pub enum Why {
    Accepted,
    /// The first refusal, and the lines behind it.
    Refused { refusal: Refusal, lines: List<u8> },
}

/// That the texts are accepted, or their first refusal and what stands behind it; texts of at most 4,294,967,294 bytes.
pub fn explain(alloc: Global, oil: &[u8], src: &[u8]) -> Result<Why>
    requires oil { length oil.now < 4294967295 }
    requires src { length src.now < 4294967295 }
    ensures { IfOk result (IsWhy oil.now src.now) }
{
    match read(alloc, oil, src) {
        Ok(_) => Ok(Why::Accepted),
        Err(BuildError::Refused(refusal)) => {
            let lines = lines_behind(alloc, oil, src, refusal)?;
            Ok(Why::Refused { refusal, lines })
        },
        Err(BuildError::Memory) => Err(NoMemory),
    }
}

/// The numbers of the events that the statement on a line names, in its order; lines are counted from 1.
pub fn named_events(alloc: Global, config: &Config, src: &[u8], line: u32) -> Result<Vec<usize>>
    requires { length src.now < 4294967295 }
{
    let read = read_lines(alloc, src)?;
    let lines = read.items();
    let mut events = Vec::new(alloc);
    let number = line as usize;
    if number == 0 || number > lines.len() {
        return Ok(events);
    }
    if let SourceLine::Statement { mnemonic, operands } = &lines[number - 1] {
        let declared = config.events.items();
        for (place, operand) in operands.items().iter().enumerate() {
            if let (Kind::Event, Some(name)) = (kind_of(*mnemonic, place), written(operand)) {
                if let Some(event) = declared.iter().position(|it| same(it.name.bytes(), name)) {
                    push(&mut events, event)?;
                }
            }
        }
    }
    Ok(events)
}
