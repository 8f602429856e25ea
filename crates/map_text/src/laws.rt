//! Laws of the definitions.
ghost use Rattle.map_text.specs.ExactRows.{RowsAreExact};
ghost use Rattle.map_text.specs.MapText.{OneText};
ghost use Rattle.map_text.specs.StatedPlaces.{FilesAreNames, OthersHaveNone, PlacesAreStated};

/// Texts have one list of lines at most.
pub fn one_text()
    ensures { OneText }
{}

/// In the rows of a planned map each piece of code and data has exactly its own bytes.
pub fn rows_are_exact()
    ensures { RowsAreExact }
{}

/// A source line comes from the place that the last comment above it in its body states, if any; the files have names.
pub fn places_are_stated()
    ensures stated { PlacesAreStated }
    ensures none { OthersHaveNone }
    ensures files { FilesAreNames }
{}
