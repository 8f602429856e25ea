//! What OIL texts, task source and loads mean, or how they are refused.
ghost use Rattle.std.specs.Prelude.{IfOk};
ghost use Rattle.sloth_base.specs.ConfigRange.{InRange};

use crate::configuration::{list_config, list_load, list_tokens, list_tree};
use crate::kernel::list_kernel;
use crate::rows::Piece::{Bytes, Number, Text};
use crate::rows::{Rows, Told};
use crate::task_code::{list_code, list_stacks, name};
use crate::texts::{Texts, number_before, short};
use app_gen::sample;
use asm_parse::parse_app;
use oil_parse::{parse, tokens};
use oil_rules::resolve;
use sloth_base::{BuildError, Config, TASK_LIMIT};
use sloth_source::read;
use stack_bounds::offsets;
use std::alloc::Global;

const CODES: &str = "O1 O2 O3 O4 O5 O6 O7 O8 O9 O10 O11 O12 O13 O14 O15 A1 A2 A3 A4 A5 A6 A7 \
    V1 V2 V3 V4 V5 V6 V7 V8 V9 V10 V11 V12 T1 T2 T3 T4 L1 L2 L3 L4";

/// Prints why a text has no meaning, if so it is.
pub fn list_error(rows: &mut Rows, told: Told) {
    match told {
        Ok(()) => {}
        Err(BuildError::Refused(refusal)) => {
            let code = name(CODES, refusal.code as usize);
            form!(rows; "refused % %\n"; Number(refusal.line as i64), Text(code))
        }
        Err(BuildError::Memory) => rows.text("no memory\n"),
    }
}

fn config(alloc: Global, text: &[u8]) -> Result<Config, BuildError>
    ensures { IfOk result InRange }
{
    let tokens = tokens(alloc, short(text)?)?;
    let tree = parse(alloc, tokens.as_slice())?;
    resolve(alloc, &tree)
}

// The tokens of an OIL text, or its tree.
fn answer_syntax(rows: &mut Rows, asked: &str, text: &[u8]) -> Told {
    let tokens = tokens(rows.alloc, short(text)?)?;
    if asked == "tokens" {
        list_tokens(rows, tokens.as_slice());
        return Ok(());
    }
    let tree = parse(rows.alloc, tokens.as_slice())?;
    list_tree(rows, &tree);
    Ok(())
}

// What a configuration is, what code its kernel has, or what a load or task source means beside it.
fn answer_beside(rows: &mut Rows, asked: &str, config: &Config, text: &[u8]) -> Told
    requires { InRange config.now }
{
    if let Some(asked) = asked.strip_prefix("words ") {
        return list_kernel(rows, asked, config);
    }
    match asked {
        "config" => list_config(rows, config),
        "load" => return list_load(rows, config, text),
        _ => {
            let app = parse_app(rows.alloc, short(text)?, config)?;
            return list_code(rows, asked, &app);
        }
    }
    Ok(())
}

// The same of the configuration of an OIL text.
fn answer_configured(rows: &mut Rows, asked: &str, oil: &[u8], text: &[u8]) -> Told {
    let config = config(rows.alloc, oil)?;
    answer_beside(rows, asked, &config, text)
}

// What the tasks of a text need of the stacks.
fn answer_stacks(rows: &mut Rows, oil: &[u8], text: &[u8]) -> Told {
    let source = read(rows.alloc, short(oil)?, short(text)?)?;
    let offsets = offsets(rows.alloc, &source.config, &source.app, &source.bounds)?;
    list_stacks(rows, &source.bounds, &offsets);
    Ok(())
}

// The two texts and the arrivals of the application that a seed and a number of tasks ask for.
fn list_sample(rows: &mut Rows, asked: &str) -> Told {
    let (seed, tasks) = number_before(asked).unwrap_or((0, ""));
    let tasks = tasks.parse::<u32>().unwrap_or(0);
    if tasks < 1 || tasks > TASK_LIMIT as u32 {
        return Ok(());
    }
    let sample = sample(rows.alloc, seed, tasks)?;
    form!(rows; "%%"; Bytes(sample.oil.items()), Bytes(sample.src.items()));
    for arrival in sample.arrivals.items() {
        form!(rows; "% T%\n"; ; arrival.at, arrival.line.0);
    }
    Ok(())
}

/// Answers what is asked of the lines before the question, or of these beside the OIL text; `words `: of its kernel.
pub fn answer_read(rows: &mut Rows, asked: &str, texts: &Texts) -> Told {
    if let Some(numbers) = asked.strip_prefix("generated ") {
        return list_sample(rows, numbers);
    }
    let text = texts.lines.strip_suffix(b"\n").unwrap_or(b"");
    match asked {
        "tokens" | "tree" => answer_syntax(rows, asked, text),
        "config" => answer_configured(rows, asked, text, text),
        "stacks" => answer_stacks(rows, &texts.oil, text),
        _ => answer_configured(rows, asked, &texts.oil, text),
    }
}
