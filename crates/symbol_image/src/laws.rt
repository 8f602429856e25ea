//! Laws of the definitions.
ghost use Rattle.symbol_image.specs.EntryTree.{InfoHasCode};
ghost use Rattle.symbol_image.specs.LineMachine.{OneMatrix, ProgramHasRows};
ghost use Rattle.symbol_image.specs.Loading.{LoadedOnce, MemoryIsLoaded, NothingElseIsLoaded};
ghost use Rattle.symbol_image.specs.Reading.{SymbolsReadBack};
ghost use Rattle.symbol_image.specs.Sections.{SectionsAgree};

/// Each byte of an image's memory is loaded to its address by one segment alone, and no other byte of the file is.
pub fn memory_is_loaded_once()
    ensures loaded { MemoryIsLoaded }
    ensures once { LoadedOnce }
    ensures no_more { NothingElseIsLoaded }
{}

/// Each symbol reads back from its tables with its name, address, size and kind, in the section that has its address.
pub fn symbols_read_back()
    ensures { SymbolsReadBack }
{}

/// The sections of words, code and data have the bytes of the segments, at the same addresses.
pub fn sections_and_segments_agree()
    ensures { SectionsAgree }
{}

/// On the standard's machine a program of rows that never fall makes just them and one end, bytes one matrix at most.
pub fn lines_are_rows()
    ensures makes { ProgramHasRows }
    ensures one { OneMatrix }
{}

/// Entries read by the table of kinds; each symbol, with the type of its bytes, and each body is among them.
pub fn entries_show_code()
    ensures { InfoHasCode }
{}
