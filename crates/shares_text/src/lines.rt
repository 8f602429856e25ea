//! The line of a symbol.
ghost use Rattle.std.specs.Prelude.{◌≡◌, ◌<◌, ◌≤◌, ◌++◌, [], length, drop, cond, OnOk, codes};
ghost use Rattle.sloth_base.specs.Limits.{task_limit, ceiling_count};
ghost use Rattle.call_graph.specs.Bits.{is_member};
ghost use Rattle.shares_text.specs.SharesText.{task_word, resource_word, task_words, resource_words, has_below, under_words, keeper_words, further_keepers, keepers_words, verdict_words};

use crate::keepers::Keeper;
use crate::open_pairs::OpenPair;
use crate::verdict::Verdict;
use call_graph::has;
use sloth_base::{Config, RES_SCHEDULER, Result};
use text_pieces::line;
use text_pieces::pieces::Piece::{Number, Word};

fn push_word(text: &mut Vec<u8>, name: &[u8]) -> Result<()>
    ensures { OnOk result (text.new.items ≡ text.old.items ++ (codes " " ++ name.now)) }
{
    line!(text; Word(b" "), Word(name))
}

fn push_task(text: &mut Vec<u8>, config: &Config, task: usize) -> Result<()>
    ensures { OnOk result (text.new.items ≡ text.old.items ++ task_word config.now task) }
{
    push_word(text, config.task_name(task))
}

fn push_tasks(text: &mut Vec<u8>, config: &Config, set: u32) -> Result<()>
    requires { length config.now.tasks ≤ task_limit }
    ensures { OnOk result (text.new.items ≡ text.old.items ++ task_words config.now set) }
{
    for task in 0..config.tasks.items().len() {
        if has(u64::from(set), task) {
            push_task(text, config, task)?;
        }
    }
    Ok(())
}

fn push_member(text: &mut Vec<u8>, config: &Config, set: u64, resource: usize) -> Result<()>
    requires { resource < 64 }
    ensures { OnOk result (text.new.items ≡ text.old.items
        ++ cond (is_member set resource) (resource_word config.now resource) []) }
{
    if has(set, resource) {
        push_word(text, config.resource_name(resource))?;
    }
    Ok(())
}

fn push_resources(text: &mut Vec<u8>, config: &Config, set: u64) -> Result<()>
    ensures { OnOk result (text.new.items ≡ text.old.items ++ resource_words config.now set) }
{
    for resource in 0..RES_SCHEDULER as usize + 1 {
        push_member(text, config, set, resource)?;
    }
    Ok(())
}

fn has_resource(set: u64) -> bool
    ensures { result ≡ has_below set ceiling_count }
{
    let mut found = false;
    for resource in 0..RES_SCHEDULER as usize + 1 {
        found = found || has(set, resource);
    }
    found
}

fn push_under(text: &mut Vec<u8>, config: &Config, set: u64) -> Result<()>
    ensures { OnOk result (text.new.items ≡ text.old.items ++ under_words config.now set) }
{
    if has_resource(set) {
        line!(text; Word(b" under"))?;
        push_resources(text, config, set)?;
    }
    Ok(())
}

fn push_non(text: &mut Vec<u8>, non: bool) -> Result<()>
    ensures { OnOk result (text.new.items ≡ text.old.items ++ cond non (codes " NON") []) }
{
    if non {
        text.extend_from_slice(b" NON")?;
    }
    Ok(())
}

fn push_keeper(text: &mut Vec<u8>, config: &Config, keeper: &Keeper) -> Result<()>
    ensures { OnOk result (text.new.items ≡ text.old.items ++ keeper_words config.now keeper.now) }
{
    push_task(text, config, keeper.task)?;
    push_non(text, keeper.non)?;
    push_under(text, config, keeper.held)?;
    Ok(())
}

// All but the first of these, each behind a comma.
fn push_further(text: &mut Vec<u8>, config: &Config, list: &[Keeper]) -> Result<()>
    ensures { OnOk result (text.new.items ≡ text.old.items ++ further_keepers config.now (drop 1 list.now)) }
{
    for number in 1..list.len() {
        text.extend_from_slice(b",")?;
        push_keeper(text, config, &list[number])?;
    }
    Ok(())
}

fn push_keepers(text: &mut Vec<u8>, config: &Config, list: &[Keeper]) -> Result<()>
    ensures { OnOk result (text.new.items ≡ text.old.items ++ keepers_words config.now list.now) }
{
    if list.is_empty() {
        return Ok(());
    }
    push_keeper(text, config, &list[0])?;
    push_further(text, config, list)
}

/// A verdict.
pub fn push_verdict(text: &mut Vec<u8>, config: &Config, verdict: &Verdict) -> Result<()>
    requires { length config.now.tasks ≤ task_limit }
    ensures { OnOk result (text.new.items ≡ text.old.items ++ verdict_words config.now verdict.now) }
{
    match verdict {
        Verdict::Unused => line!(text; Word(b" unused")),
        Verdict::One(task) => line!(text; Word(b" one "), Word(config.task_name(*task))),
        Verdict::Reads(tasks) => {
            text.extend_from_slice(b" reads")?;
            push_tasks(text, config, *tasks)
        }
        Verdict::Guarded(resources) => {
            text.extend_from_slice(b" guarded")?;
            push_resources(text, config, *resources)
        }
        Verdict::Ordered(list) => {
            text.extend_from_slice(b" ordered")?;
            push_keepers(text, config, list.items())
        }
        Verdict::Open(pair) => {
            let (low, high) = (config.task_name(pair.low), config.task_name(pair.high));
            text.extend_from_slice(b" open")?;
            line!(text; Word(b" "), Word(low), Word(b" "), Number(pair.low_line), Word(b" "),
                Word(high), Word(b" "), Number(pair.high_line))
        }
    }
}
