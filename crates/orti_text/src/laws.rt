//! Laws of the definitions.
ghost use Rattle.orti_text.specs.ByState.{ValuesByState};
ghost use Rattle.orti_text.specs.FileNames.{NamesDiffer};
ghost use Rattle.orti_text.specs.FormulaReading.{FormulasReadBack};
ghost use Rattle.orti_text.specs.OrtiText.{FilesReadBack, OneText};
ghost use Rattle.orti_text.specs.Places.{FormulasAreReadable};
ghost use Rattle.orti_text.specs.TableReading.{TablesReadBack};

/// Texts have one file at most.
pub fn one_text()
    ensures { OneText }
{}

/// A formula by state has the value of the one of four that memory and controller show of the task.
pub fn values_by_state()
    ensures { ValuesByState }
{}

/// Each formula reads words and bytes that are there.
pub fn formulas_are_readable()
    ensures { FormulasAreReadable }
{}

/// The text of a formula is read as this formula, and as no other.
pub fn formulas_read_back()
    ensures { FormulasReadBack }
{}

/// The text of a table is read as this table, and as no other.
pub fn tables_read_back()
    ensures { TablesReadBack }
{}

/// The file of accepted texts is read as its table.
pub fn files_read_back()
    ensures { FilesReadBack }
{}

/// Names are identifiers of C, and those of a kind differ.
pub fn names_differ()
    ensures { NamesDiffer }
{}
