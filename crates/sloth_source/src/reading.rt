//! What both texts mean. What both texts mean before the rules of task code are judged.
//! The configuration that an OIL text declares. The stacks of task code that keeps the rules.
//! Texts, read and verified.
ghost use Rattle.std.specs.Prelude.{◌<◌, IfOk, IfErr, length};
ghost use Rattle.code_rules.specs.WellFormed.{WellFormed, CycleFault};
ghost use Rattle.stack_bounds.specs.Bounds.{AreBounds};
ghost use Rattle.sloth_source.specs.SourceText.{BodiesAreNamed, HasApp};
ghost use Rattle.sloth_source.specs.Texts.{AreAccepted, SourcesErrorIs};
ghost use Rattle.sloth_base.specs.ConfigRange.{InRange};
ghost use Rattle.sloth_base.specs.Order.{NoFault};
ghost use Rattle.code_rules.specs.AppRange.{AppInRange};
ghost use Rattle.call_graph.specs.Ranks.{RanksOf};
ghost use Rattle.sloth_source.specs.RankedTexts.{HasRanks, EarlySourceErrorIs, EarlyErrorIs};
ghost use Rattle.oil_parse.specs.Text.{HasTree};
ghost use Rattle.sloth_source.specs.OilText.{OilText, OilErrorIs};
ghost use Rattle.sloth_source.specs.Checked.{IsBounded, RulesErrorIs};

use asm_parse::parse_app;
use call_graph::{Ranks, ranks};
use oil_parse::{OilTree, parse, tokens};
use oil_rules::resolve;
use sloth_base::{App, Bounds, BuildError, Config};
use stack_bounds::bound;
use std::alloc::Global;
use task_verify::{Verified, verify};

/// A configuration and its task code, and the bytes of stack that its tasks may need.
#[derive(Drop)]
pub struct Source {
    pub config: Config,
    pub app: App,
    pub bounds: Bounds,
}

/// Reads a configuration and its task source, texts of at most 4,294,967,294 bytes: what they mean, or the first
/// refusal: of the configuration (O1 to O15), then the source (A1 to A7), then its task code (V1, then V2 to V12).
pub fn read(alloc: Global, oil: &[u8], src: &[u8]) -> Result<Source, BuildError>
    requires oil { length oil.now < 4294967295 }
    requires src { length src.now < 4294967295 }
    ensures accepted { IfOk result (λ source. AreAccepted oil.now src.now source.config source.app) }
    ensures well_formed { IfOk result (λ source. WellFormed source.config source.app) }
    ensures named { IfOk result (λ source. BodiesAreNamed source.config source.app) }
    ensures bounds { IfOk result (λ source. AreBounds source.config source.app source.bounds) }
    ensures refused { IfErr result (SourcesErrorIs oil.now src.now) }
{
    let Ranked { config, app, ranks } = read_ranked(alloc, oil, src)?;
    bounded(alloc, config, app, &ranks)
}

/// A configuration, its task code, and the ranks of the functions.
#[derive(Drop)]
pub struct Ranked {
    pub config: Config,
    pub app: App,
    pub ranks: Ranks,
}

// Task code, and the ranks of its functions.
#[derive(Drop)]
struct Code {
    app: App,
    ranks: Ranks,
}

fn read_code(alloc: Global, text: &[u8], config: &Config) -> Result<Code, BuildError>
    requires text { length text.now < 4294967295 }
    requires config { InRange config.now }
    ensures has_app { IfOk result (λ code. HasApp text.now config.now code.app) }
    ensures in_range { IfOk result (λ code. AppInRange config.now code.app) }
    ensures no_cycle { IfOk result (λ code. NoFault (CycleFault code.app)) }
    ensures named { IfOk result (λ code. BodiesAreNamed config.now code.app) }
    ensures belong { IfOk result (λ code. RanksOf code.app code.ranks) }
    ensures refused { IfErr result (EarlySourceErrorIs text.now config.now) }
{
    let app = parse_app(alloc, text, config)?;
    let ranks = ranks(alloc, &app)?;
    Ok(Code { app, ranks })
}

/// Reads a configuration and its task source, each a text of at most 4,294,967,294 bytes, but does not judge the rules
/// V2 to V12 of the task code: what they mean, or the first refusal. The configuration is judged first (O1 to O15),
/// then the source (A1 to A7), and then the cycles of its calls (V1).
pub fn read_ranked(alloc: Global, oil: &[u8], src: &[u8]) -> Result<Ranked, BuildError>
    requires oil { length oil.now < 4294967295 }
    requires src { length src.now < 4294967295 }
    ensures has_ranks { IfOk result (λ ranked. HasRanks oil.now src.now ranked.config ranked.app) }
    ensures in_range { IfOk result (λ ranked. AppInRange ranked.config ranked.app) }
    ensures named { IfOk result (λ ranked. BodiesAreNamed ranked.config ranked.app) }
    ensures belong { IfOk result (λ ranked. RanksOf ranked.app ranked.ranks) }
    ensures refused { IfErr result (EarlyErrorIs oil.now src.now) }
{
    let config = read_config(alloc, oil)?;
    let Code { app, ranks } = read_code(alloc, src, &config)?;
    Ok(Ranked { config, app, ranks })
}

fn read_tree(alloc: Global, text: &[u8]) -> Result<OilTree, BuildError>
    requires { length text.now < 4294967295 }
    ensures tree { IfOk result (HasTree text.now) }
    ensures refused { IfErr result (OilErrorIs text.now) }
{
    let tokens = tokens(alloc, text)?;
    parse(alloc, tokens.as_slice())
}

/// Reads an OIL text of at most 4,294,967,294 bytes (OIL 2.5): its configuration, or the least fault of its tokens (O1
/// to O3), or else of its grammar (O4 to O6), or else of its meaning (O7 to O15).
pub fn read_config(alloc: Global, text: &[u8]) -> Result<Config, BuildError>
    requires { length text.now < 4294967295 }
    ensures config { IfOk result (OilText text.now) }
    ensures in_range { IfOk result InRange }
    ensures refused { IfErr result (OilErrorIs text.now) }
{
    let tree = read_tree(alloc, text)?;
    resolve(alloc, &tree)
}

fn bounded(alloc: Global, config: Config, app: App, ranks: &Ranks) -> Result<Source, BuildError>
    requires in_range { AppInRange config app }
    requires belong { RanksOf app ranks.now }
    ensures bounded { IfOk result (IsBounded config app) }
    ensures refused { IfErr result (RulesErrorIs config app) }
{
    let verified = verify(alloc, config, app, ranks)?;
    let bounds = bound(alloc, &verified, ranks)?;
    let (config, app) = verified.parts();
    Ok(Source {
        config,
        app,
        bounds,
    })
}

/// Task code that keeps all rules, with its configuration, and the ranks of its functions.
pub struct Checked {
    pub verified: Verified,
    pub ranks: Ranks,
}

// Written out: what is derived is proved anew wherever a value is let go.
impl Drop for Checked {
    fn drop(self) {
        let Checked {
            verified: _,
            ranks: _,
        } = self;
    }
}

/// What two texts of at most 4,294,967,294 bytes mean, or their first refusal (O1 to O15, A1 to A7, V1 to V12).
pub fn read_checked(alloc: Global, oil: &[u8], src: &[u8]) -> Result<Checked, BuildError>
    requires oil { length oil.now < 4294967295 }
    requires src { length src.now < 4294967295 }
    ensures accepted { IfOk result
        (λ checked. AreAccepted oil.now src.now checked.verified.config checked.verified.app) }
    ensures belong { IfOk result (λ checked. RanksOf checked.verified.app checked.ranks) }
    ensures refused { IfErr result (SourcesErrorIs oil.now src.now) }
{
    let Ranked { config, app, ranks } = read_ranked(alloc, oil, src)?;
    let verified = verify(alloc, config, app, &ranks)?;
    Ok(Checked { verified, ranks })
}
