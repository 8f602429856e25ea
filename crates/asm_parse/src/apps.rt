//! The task code of lines. A5 and A6 of symbols. Reads task source.
ghost use Rattle.std.specs.Prelude.{◌≡◌, ◌+◌, ◌<◌, ◌^◌, length, map, filter, All, IfOk, take, List, ℕ, IfErr, OnOk};
ghost use Rattle.asm_scopes.specs.Statements.{is_data, symbol_names};
ghost use Rattle.asm_parse.specs.Numbered.{IsNumbered};
ghost use Rattle.asm_scopes.specs.Bodies.{bodies_of};
ghost use Rattle.asm_scopes.specs.Scopes.{scope_of};
ghost use Rattle.asm_parse.specs.Apps.{first_bytes, bytes_with, symbol_of, func_of, app_of};
ghost use Rattle.sloth_base.specs.Search.{IsSearchResult, Somewhere};
ghost use Rattle.asm_parse.specs.NameFaults.{is_taken, is_too_much, SymbolFault, DataFault, NameFault};
ghost use Rattle.sloth_base.specs.ConfigRange.{InRange};
ghost use Rattle.sloth_base.specs.declared.config.Config.{Config};
ghost use Rattle.sloth_base.specs.declared.app.App.{App};
ghost use Rattle.sloth_base.specs.Order.{ErrorIs, NoFault, IsLeast};
ghost use Rattle.code_rules.specs.AppRange.{AppInRange};
ghost use Rattle.asm_parse.specs.AppTexts.{AppText, SourceTextFault};

use crate::bodies::function;
use crate::body_faults::{Found, has_long, judge};
use crate::{bytes_of, count_data};
use asm_lines::{Operand, SourceLine, read};
use asm_scopes::{Body, Scope, bodies_of, is_data, name_of, number_of, scope_of};
use sloth_base::refusal::{fault_if, merge};
use sloth_base::{
    App, BuildError, Code, Config, DATA_LIMIT, Func, List, Name, Part, Refusal, Result,
    SYMBOL_LIMIT, Symbol,
};
use std::alloc::Global;
use text_pieces::{Names, push, same};

// The bytes that stand behind the name and the size of a `data`.
fn first_bytes(line: &SourceLine) -> &[u8]
    ensures { result.now ≡ first_bytes line.now }
{
    match line {
        SourceLine::Statement { operands, .. } => match operands.items() {
            [_, _, Operand::Bytes(bytes), ..] => bytes.items(),
            _ => &[],
        },
        _ => &[],
    }
}

// The first bytes of a symbol, and then zeros up to its size.
fn padded_bytes(alloc: Global, first: &[u8], size: usize) -> Result<Vec<u8>>
    ensures { IfOk result (λ bytes. bytes.items ≡ bytes_with first.now size) }
{
    let mut bytes = Vec::from_slice(alloc, first)?;
    for i in 0..size.saturating_sub(first.len()) {
        push(&mut bytes, 0)?;
    }
    Ok(bytes)
}

fn declared_symbol(alloc: Global, line: &SourceLine) -> Result<Symbol>
    ensures { IfOk result (λ symbol. symbol ≡ symbol_of line.now) }
{
    let name = Name::new(alloc, name_of(line))?;
    let size = number_of(line) as usize;
    let bytes = List::from_vec(padded_bytes(alloc, first_bytes(line), size)?);
    Ok(Symbol { name, bytes })
}

fn symbols(alloc: Global, lines: &[SourceLine]) -> Result<Vec<Symbol>>
    ensures { IfOk result (λ symbols. symbols.items ≡ map symbol_of (filter is_data lines.now)) }
{
    let mut symbols = Vec::new(alloc);
    for line in lines {
        if is_data(line) {
            let symbol = declared_symbol(alloc, line)?;
            push(&mut symbols, symbol)?;
        }
    }
    Ok(symbols)
}

fn functions(alloc: Global, config: &Config, scope: &Scope, bodies: &[Body]) -> Result<Vec<Func>>
    requires short { All (λ body. body.line + length body.lines < 2 ^ 32) bodies.now }
    requires numbered { IsNumbered scope.now }
    ensures { IfOk result (λ funcs. funcs.items ≡ map (func_of config.now scope.now) bodies.now) }
{
    let mut funcs = Vec::new(alloc);
    for body in bodies {
        let func = function(alloc, config, scope, body)?;
        push(&mut funcs, func)?;
    }
    Ok(funcs)
}

/// The task code of these lines.
pub fn app_of(alloc: Global, config: &Config, lines: &[SourceLine], bodies: &[Body]) -> Result<App>
    requires few { length lines.now < 2 ^ 32 }
    requires numbered { IsNumbered (scope_of config.now lines.now (bodies_of lines.now)) }
    requires bodies { bodies.now ≡ bodies_of lines.now }
    ensures { IfOk result (λ app. app ≡ app_of config.now lines.now) }
{
    let scope = scope_of(alloc, config, lines, bodies)?;
    let funcs = List::from_vec(functions(alloc, config, &scope, bodies)?);
    let symbols = List::from_vec(symbols(alloc, lines)?);
    Ok(App { funcs, symbols })
}

/// A5 of a symbol: it takes the name of one of the first `count`, or `frame`.
pub fn is_taken(symbols: &Names, count: usize, line: &SourceLine) -> bool
    ensures { result ≡ is_taken (take count symbols.now) line.now }
{
    let name = name_of(line);
    is_data(line) && (symbols.is_among_first(count, name) || same(name, b"frame"))
}

/// A6 of a symbol behind so many of so many bytes: one too many, a sum of sizes above the limit, or a long name.
pub fn is_too_much(count: usize, bytes: usize, line: &SourceLine) -> bool
    requires { bytes < 2 ^ 63 }
    ensures { result ≡ is_too_much count bytes line.now }
{
    is_data(line)
        && (count == SYMBOL_LIMIT
            || bytes + number_of(line) as usize > DATA_LIMIT
            || has_long(line))
}

fn symbol_fault(symbols: &Names, count: usize, bytes: usize, n: u32, line: &SourceLine) -> Found
    requires { bytes < 2 ^ 63 }
    ensures { IsSearchResult (SymbolFault (take count symbols.now) count bytes n line.now) result }
{
    let taken = fault_if(is_taken(symbols, count, line), Part::Src, n, Code::A5);
    let too_much = fault_if(is_too_much(count, bytes, line), Part::Src, n, Code::A6);
    merge(taken, too_much)
}

/// The least fault of the symbols that these lines declare.
pub fn data_faults(symbols: &Names, lines: &[SourceLine]) -> Found
    requires few { length lines.now < 2 ^ 32 }
    requires symbols { symbols.now ≡ symbol_names lines.now }
    ensures { IsSearchResult (Somewhere DataFault lines.now) result }
{
    let mut least = None;
    let mut count = 0;
    let mut bytes = 0;
    for (n, line) in lines.iter().enumerate() {
        let found = symbol_fault(symbols, count, bytes, n as u32 + 1, line);
        least = merge(least, found);
        count += count_data(line);
        bytes += bytes_of(line);
    }
    least
}

fn judged_app(alloc: Global, lines: &[SourceLine], config: &Config) -> Result<Result<App, Refusal>>
    requires few { length lines.now < 2 ^ 32 }
    requires config { InRange config.now }
    ensures app { IfOk result (λ found. IfOk found (λ app. app ≡ app_of config.now lines.now)) }
    ensures none { IfOk result (λ found. OnOk found (NoFault (NameFault config.now lines.now))) }
    ensures refused { IfOk result (λ found. IfErr found (IsLeast (NameFault config.now lines.now))) }
{
    let bodies = bodies_of(alloc, lines)?;
    let refusal = judge(alloc, config, lines, bodies.as_slice())?;
    if let Some(refusal) = refusal {
        return Ok(Err(refusal));
    }
    let app = app_of(alloc, config, lines, bodies.as_slice())?;
    Ok(Ok(app))
}

/// The task code of a text, in range of the configuration, or its least refusal: A1 to A4 of its lines, and where they
/// have none A5 to A7 of names and limits. The text has at most 4,294,967,294 bytes.
pub fn parse_app(alloc: Global, text: &[u8], config: &Config) -> Result<App, BuildError>
    requires text { length text.now < 4294967295 }
    requires config { InRange config.now }
    ensures app { IfOk result (λ app. AppText text.now config.now app) }
    ensures in_range { IfOk result (λ app. AppInRange config.now app) }
    ensures none { OnOk result (NoFault (SourceTextFault config.now text.now)) }
    ensures refused { IfErr result (λ error. ErrorIs (SourceTextFault config.now text.now) error) }
{
    let lines = read(alloc, text)?;
    match judged_app(alloc, lines.items(), config) {
        Ok(Ok(app)) => Ok(app),
        Ok(Err(refusal)) => Err(BuildError::Refused(refusal)),
        Err(_) => Err(BuildError::Memory),
    }
}

/// A text says one task code at most.
pub fn one_app()
    ensures { (text : List ℕ) (config : Config) (a b : App) → AppText text config a → AppText text config b → a ≡ b }
{}
