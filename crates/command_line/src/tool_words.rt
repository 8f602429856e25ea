//! The words of tools.
ghost use Rattle.std.specs.Prelude.{◌≡◌, ◌≤◌, ◌∷◌, ◌++◌, ℕ, List, IfSome, IfNone, Option, Some, Decides};
ghost use Rattle.std.specs.Prelude.{option_to_list, decimal, length, drop};
ghost use Rattle.std.specs.Option.{option_map};
ghost use Rattle.command_line.specs.declared.counts.Counts.{Counts as AnyCounts};
ghost use Rattle.command_line.specs.declared.counts.Limit.TheVariants as limit;
ghost use Rattle.command_line.specs.declared.counts.Window.{Window as AnyWindow};
ghost use Rattle.command_line.specs.Tools.{BeginWith, IsWindow, IsOutput, output_words, asks_second};
ghost use Rattle.command_line.specs.Command.{IsCommand, NoTool, Uses, words_of};
ghost use Rattle.command_line.specs.Words.{use_of};

use crate::counts::Limit;
use crate::tool::{ToolWords, tool_named};
use crate::{Counts, Window};
use trace_text::number_below;

fn words_behind(words: &[String], count: usize) -> &[String]
    requires { count ≤ length words.now }
    ensures { result.now ≡ drop count words.now }
{
    &words[count..]
}

/// Whether these are one word.
pub fn is_same(word: &str, other: &str) -> bool
    ensures { Decides result (word.now ≡ other.now) }
{
    word == other
}

// The words behind a word, where there is to be one.
fn behind_word<'a>(word: Option<&str>, words: &'a [String]) -> Option<&'a [String]>
    ensures some { IfSome result
        (λ rest. words_of words.now ≡ option_to_list (option_map (λ word. word.now) word.entry) ++ words_of rest.now) }
    ensures none { IfNone result ((rest : List (List ℕ)) → words_of words.now ≡ option_to_list
        (option_map (λ word. word.now) word.entry) ++ rest → ⊥) }
{
    let Some(wanted) = word else {
        return Some(words);
    };
    let first = words.first()?;
    if is_same(first, wanted) {
        Some(words_behind(words, 1))
    } else {
        None
    }
}

// Whether the second of two tools of one word is asked for.
fn asks_second(words: &[String]) -> bool
    ensures { result ≡ asks_second (words_of words.now) }
{
    match words.get(3) {
        Some(word) if words[0].as_str() == "why" => word.as_str() == "labels",
        Some(word) => word.as_str() == "counts",
        None => false,
    }
}

// Counts, if there are to be any, and the words behind them.
type Counted<'a> = (Option<Counts>, &'a [String]);

fn window(from: &str, to: &str, most: u32, apart: u32) -> Option<Window>
    ensures some { IfSome result (λ w. (from.now ≡ decimal w.from) × (to.now ≡ decimal w.to) × IsWindow most apart w) }
    ensures none { IfNone result
        ((w : AnyWindow) → IsWindow most apart w → from.now ≡ decimal w.from → to.now ≡ decimal w.to → ⊥) }
{
    let from = number_below(from, most)?;
    let to = number_below(to, most)?;
    if from > to || to - from > apart {
        return None;
    }
    Some(Window { from, to })
}

fn number_and_rest(most: u32, words: &[String]) -> Option<Counted<'_>>
    ensures some { IfSome result
        (λ c. BeginWith (Some (limit.One most)) (words_of words.now) c.0 (words_of c.1.now)) }
    ensures none { IfNone result
        ((n : ℕ) (rest : List (List ℕ)) → n ≤ most → words_of words.now ≡ decimal n ∷ rest → ⊥) }
{
    let first = words.first()?;
    let count = number_below(first, most)?;
    Some((Some(Counts::One(count)), &words[1..]))
}

fn window_and_rest(most: u32, apart: u32, words: &[String]) -> Option<Counted<'_>>
    ensures some { IfSome result
        (λ c. BeginWith (Some (limit.Window most apart)) (words_of words.now) c.0 (words_of c.1.now)) }
    ensures none { IfNone result ((w : AnyWindow) (rest : List (List ℕ)) → IsWindow most apart w
        → words_of words.now ≡ decimal w.from ∷ decimal w.to ∷ rest → ⊥) }
{
    if words.len() < 2 {
        return None;
    }
    let window = window(words[0].as_str(), words[1].as_str(), most, apart)?;
    Some((Some(Counts::Window(window)), &words[2..]))
}

fn counts_and_rest(limit: Option<Limit>, words: &[String]) -> Option<Counted<'_>>
    ensures some { IfSome result (λ c. BeginWith limit (words_of words.now) c.0 (words_of c.1.now)) }
    ensures none { IfNone result
        ((c : Option AnyCounts) (rest : List (List ℕ)) → BeginWith limit (words_of words.now) c rest → ⊥) }
{
    match limit {
        None => Some((None, words)),
        Some(Limit::One(most)) => number_and_rest(most, words),
        Some(Limit::Window { most, apart }) => window_and_rest(most, apart, words),
    }
}

fn output_word(writes: bool, words: &[String]) -> Option<Option<&str>>
    ensures some { IfSome result (λ o. (words_of words.now ≡ output_words (option_map (λ name. name.now) o)) × IsOutput
        writes (option_map (λ name. name.now) o)) }
    ensures none { IfNone result ((o : Option (List ℕ)) → IsOutput writes o → words_of words.now ≡ output_words o → ⊥) }
{
    match words.len() {
        0 if !writes => Some(None),
        1 if writes => Some(Some(words[0].as_str())),
        _ => None,
    }
}

/// The tool of these words, if they are one's.
pub fn tool_command(words: &[String]) -> Option<ToolWords<'_>>
    ensures some { IfSome result (λ t. IsCommand (words_of words.now) (Uses (use_of t))) }
    ensures none { IfNone result (NoTool (words_of words.now)) }
{
    let tool = tool_named(words.first()?, words.len(), asks_second(words))?;
    let row = tool.row();
    let behind = row.inputs + 1;
    if words.len() < behind {
        return None;
    }
    let rest = behind_word(row.further, words_behind(words, behind))?;
    let counted = counts_and_rest(row.limit, rest)?;
    let closed = behind_word(tool.closing_word(), counted.1)?;
    let output = output_word(row.writes, closed)?;
    Some(ToolWords {
        tool,
        inputs: &words[1..behind],
        counts: counted.0,
        output,
    })
}
