//! Laws of the definitions.
ghost use Rattle.symbol_build.specs.BuiltFiles.{BuiltMayShow, BuiltMemoryIsLoaded};
ghost use Rattle.symbol_build.specs.SourceFiles.{FilesSaySource};
ghost use Rattle.symbol_build.specs.SourceRows.{SourceLinesAreRows};
ghost use Rattle.symbol_build.specs.StandingSections.{NamesStand, SectionsStand};
ghost use Rattle.symbol_build.specs.StandingSymbols.{SymbolsStand};
ghost use Rattle.symbol_build.specs.SymbolFiles.{FitsEachImage, OneSymbolFile};
ghost use Rattle.symbol_build.specs.SymbolNames.{LocalNamesDiffer};

/// Texts have one file for each image.
pub fn one_symbol_file()
    ensures { OneSymbolFile }
{}

/// The file of texts fits each image that is built of them.
pub fn fits_each_image()
    ensures { FitsEachImage }
{}

/// No two local symbols of a planned map have one name.
pub fn local_names_differ()
    ensures { LocalNamesDiffer }
{}

/// What an image is built of can be shown, and its file loads each byte of the image once.
pub fn built_memory_is_loaded()
    ensures may { BuiltMayShow }
    ensures loaded { BuiltMemoryIsLoaded }
{}

/// Each section of a file stands in it where its header says, and has its name there.
pub fn sections_stand()
    ensures bytes { SectionsStand }
    ensures names { NamesStand }
{}

/// On the standard's machine of lines accepted texts' section makes exactly their items' rows, at their stated places.
pub fn source_lines_are_rows()
    ensures { SourceLinesAreRows }
{}

/// Each symbol is found in the tables that stand in a file.
pub fn symbols_stand()
    ensures { SymbolsStand }
{}

/// The file of texts has their source lines, and their symbols and bodies with the lines that declare them.
pub fn files_say_source()
    ensures { FilesSaySource }
{}
