//! Laws of the definitions.
ghost use Rattle.tool_commands.specs.Answers.{OneAnswer};

/// Files have one answer of each tool but `symbols` and `losses`, whose file or text is one for each image, those that
/// tell one of several true reasons, and `response` of one task (`is_determined`; of its texts: `response_text`).
pub fn one_answer()
    ensures { OneAnswer }
{}
