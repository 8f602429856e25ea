//! The file of texts.
ghost use Rattle.std.specs.Prelude.{◌≡◌, ◌≤◌, ◌<◌, IfErr, IfOk, length};
ghost use Rattle.sloth_base.specs.Limits.{file_limit};
ghost use Rattle.sloth_base.specs.declared.image.Image.{Image as AnyImage};
ghost use Rattle.sloth_build.specs.Gathered.{MayBuild};
ghost use Rattle.map_text.specs.Listable.{IsListable};
ghost use Rattle.sloth_source.specs.Texts.{SourcesErrorIs};
ghost use Rattle.symbol_image.specs.FileParts.{MayShow};
ghost use Rattle.symbol_image.specs.SymbolFile.{symbol_file};
ghost use Rattle.symbol_build.specs.SymbolFiles.{IsFileOfImage, IsSymbolFile, parts_of, source_origins};

use asm_lines::read_lines;
use map_text::{Origins, line_origins, map_rows};
use mem_map::plan;
use sloth_base::{App, Bounds, BuildError, Config, Result};
use sloth_build::gathering::image;
use sloth_region::Map;
use sloth_source::{Source, read};
use std::alloc::Global;
use symbol_image::{Parts, symbol_file};
use text_pieces::lines;

fn source_origins(alloc: Global, src: &[u8]) -> Result<Origins>
    requires short { length src.now ≤ file_limit }
    ensures { IfOk result (λ found. found ≡ source_origins src.now) }
{
    let statements = read_lines(alloc, src)?;
    let texts = lines(alloc, src)?;
    line_origins(alloc, texts.as_slice(), statements.items())
}

fn parts_file<'t>(
    alloc: Global,
    name: &'t [u8],
    origins: &'t Origins,
    config: &'t Config,
    app: &'t App,
    map: &'t Map,
    memory: &'t [u8],
) -> Result<Vec<u8>>
    requires listable { IsListable config.now map.now }
    requires may { MayShow (parts_of name.now origins.now config.now app.now map.now memory.now) }
    ensures { IfOk result (λ file. file.items
        ≡ symbol_file (parts_of name.now origins.now config.now app.now map.now memory.now)) }
{
    let rows = map_rows(alloc, config, map)?;
    let parts = Parts {
        source: name,
        config,
        app,
        map,
        origins,
        memory,
    };
    symbol_file(alloc, &parts, rows.as_slice())
}

fn planned_file(
    alloc: Global,
    name: &[u8],
    src: &[u8],
    config: &Config,
    app: &App,
    bounds: &Bounds,
) -> Result<Vec<u8>>
    requires short { length src.now ≤ file_limit }
    requires may { MayBuild config.now app.now bounds.now }
    ensures { IfOk result (λ file.
        (image : AnyImage) × IsFileOfImage config.now app.now name.now (source_origins src.now) image file.items) }
{
    let image = image(alloc, config, app, bounds)?;
    let map = plan(alloc, app, config, bounds)?;
    let origins = source_origins(alloc, src)?;
    let memory = image.memory.items();
    parts_file(alloc, name, &origins, config, app, &map, memory)
}

/// The debuggers' file of an image of these texts, the second of this name, at most 4 MiB each; or the first refusal.
pub fn symbols_file(
    alloc: Global,
    oil: &[u8],
    src: &[u8],
    name: &[u8],
) -> Result<Vec<u8>, BuildError>
    requires oil { length oil.now ≤ file_limit }
    requires src { length src.now ≤ file_limit }
    ensures file { IfOk result (λ file. IsSymbolFile oil.now src.now name.now file.items) }
    ensures refused { IfErr result (SourcesErrorIs oil.now src.now) }
{
    let Source {
        config,
        app,
        bounds,
    } = read(alloc, oil, src)?;
    let file = planned_file(alloc, name, src, &config, &app, &bounds)?;
    Ok(file)
}
