//! The words of a command.
ghost use Rattle.std.specs.Prelude.{◌≡◌, ℕ, List, IfSome, IfNone, length};
ghost use Rattle.trace_text.specs.declared.events.Form.{Form as AnyForm};
ghost use Rattle.command_line.specs.Command.{Command, Execution, Executes, IsCommand, NoCommand, ToolAtMost, word_of};
ghost use Rattle.command_line.specs.Command.{words_of};
ghost use Rattle.command_line.specs.Words.{command_of, execution_of};

use crate::tool::ToolWords;
use crate::tool_words::{is_same, tool_command};
use trace_text::events::number;
use trace_text::{Form, instructions};

/// How an image is run.
#[derive(Clone, Copy)]
pub struct RunWords<'a> {
    /// How the events are printed: `run` counts, `order` does not.
    pub form: Form,
    pub arr: &'a str,
    /// The number of instructions, 0 to `COUNT_LIMIT`.
    pub n: u32,
}

/// The words `build OIL SRC IMG`, `run OIL SRC ARR IMG N`, or `order OIL SRC ARR IMG N`.
#[derive(Clone, Copy)]
pub struct BuildWords<'a> {
    pub oil: &'a str,
    pub src: &'a str,
    pub img: &'a str,
    /// How the image is run, if it is.
    pub run: Option<RunWords<'a>>,
}

/// The words `exec IMG ARR N`.
#[derive(Clone, Copy)]
pub struct ExecWords<'a> {
    pub img: &'a str,
    pub arr: &'a str,
    /// The number of instructions, 0 to `COUNT_LIMIT`.
    pub n: u32,
}

/// The words of a command.
#[derive(Clone, Copy)]
pub enum CommandWords<'a> {
    Build(BuildWords<'a>),
    Exec(ExecWords<'a>),
    /// `list IMG`: the image file.
    List(&'a str),
    /// `sample SEED IMG`
    Sample { seed: u32, img: &'a str },
    /// The words of a tool.
    Tool(ToolWords<'a>),
}

fn form(word: &str) -> Option<Form>
    ensures some { IfSome result (λ form. word.now ≡ word_of form) }
    ensures none { IfNone result ((form : AnyForm) → word.now ≡ word_of form → ⊥) }
{
    if word == "run" {
        return Some(Form::Counted);
    }
    if word == "order" {
        return Some(Form::Bare);
    }
    None
}

fn list_command(words: &[String]) -> Option<CommandWords<'_>>
    requires { length words.now ≡ 2 }
    ensures some { IfSome result (λ c. IsCommand (words_of words.now) (command_of c)) }
    ensures none { IfNone result (ToolAtMost (words_of words.now)) }
{
    if !is_same(words[0].as_str(), "list") {
        return None;
    }
    Some(CommandWords::List(words[1].as_str()))
}

fn sample_command(words: &[String]) -> Option<CommandWords<'_>>
    requires { length words.now ≡ 3 }
    ensures some { IfSome result (λ c. IsCommand (words_of words.now) (command_of c)) }
    ensures none { IfNone result (ToolAtMost (words_of words.now)) }
{
    if !is_same(words[0].as_str(), "sample") {
        return None;
    }
    let (seed, img) = (number(words[1].as_str())?, words[2].as_str());
    Some(CommandWords::Sample { seed, img })
}

fn exec_words(words: &[String]) -> Option<ExecWords<'_>>
    requires { length words.now ≡ 4 }
    ensures some { IfSome result (λ e. IsCommand (words_of words.now) (Executes (execution_of e))) }
    ensures none { IfNone result ((e : Execution) → IsCommand (words_of words.now) (Executes e) → ⊥) }
{
    if !is_same(words[0].as_str(), "exec") {
        return None;
    }
    let (img, arr) = (words[1].as_str(), words[2].as_str());
    let n = instructions(words[3].as_str())?;
    Some(ExecWords { img, arr, n })
}

fn image_command(words: &[String]) -> Option<CommandWords<'_>>
    requires { length words.now ≡ 4 }
    ensures some { IfSome result (λ c. IsCommand (words_of words.now) (command_of c)) }
    ensures none { IfNone result (ToolAtMost (words_of words.now)) }
{
    if is_same(words[0].as_str(), "build") {
        let (oil, src) = (words[1].as_str(), words[2].as_str());
        let (img, run) = (words[3].as_str(), None);
        return Some(CommandWords::Build(BuildWords { oil, src, img, run }));
    }
    Some(CommandWords::Exec(exec_words(words)?))
}

fn run_command(words: &[String]) -> Option<CommandWords<'_>>
    requires { length words.now ≡ 6 }
    ensures some { IfSome result (λ c. IsCommand (words_of words.now) (command_of c)) }
    ensures none { IfNone result (ToolAtMost (words_of words.now)) }
{
    let form = form(words[0].as_str())?;
    let n = instructions(words[5].as_str())?;
    let (oil, src) = (words[1].as_str(), words[2].as_str());
    let (arr, img) = (words[3].as_str(), words[4].as_str());
    let run = Some(RunWords { form, arr, n });
    Some(CommandWords::Build(BuildWords { oil, src, img, run }))
}

/// The command of these words, if they are one's.
pub fn command(words: &[String]) -> Option<CommandWords<'_>>
    ensures some { IfSome result (λ c. IsCommand (words_of words.now) (command_of c)) }
    ensures none { IfNone result (NoCommand (words_of words.now)) }
{
    match tool_command(words) {
        Some(words) => Some(CommandWords::Tool(words)),
        None => match words.len() {
            2 => list_command(words),
            3 => sample_command(words),
            4 => image_command(words),
            6 => run_command(words),
            _ => None,
        },
    }
}

/// Words are those of one command at most.
pub fn one_command()
    ensures { (words : List (List ℕ)) (one other : Command) → IsCommand words one → IsCommand words other → one
        ≡ other }
{}
