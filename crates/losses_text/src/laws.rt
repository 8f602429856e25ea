//! Laws of the definitions.
ghost use Rattle.losses_text.specs.Losses.{OneLossesText};
ghost use Rattle.losses_text.specs.NothingLost.{RunsHaveRequests};

/// The events of a run of the abstract scheduler ask for one list of requests; and where no request of a line is lost,
/// no event finds a state in which it loses one.
pub fn runs_have_requests()
    ensures { RunsHaveRequests }
{}

/// Texts and arrivals have one text for each image.
pub fn one_losses_text()
    ensures { OneLossesText }
{}
