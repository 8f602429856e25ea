//! Laws of the definitions.
ghost use Rattle.response_text.specs.ResponseText.{OneText};
ghost use Rattle.response_text.specs.TaskText.{OneTaskText};

/// Texts have one answer at most.
pub fn one_text()
    ensures { OneText }
{}

/// Texts have one answer of a task at most.
pub fn one_task_text()
    ensures { OneTaskText }
{}
