//! Task code that keeps the rules.
ghost use Rattle.std.specs.Prelude.{◌≡◌};
ghost use Rattle.code_rules.specs.WellFormed.{WellFormed};

use sloth_base::{App, Config};
use std::marker::Model;

/// Well-formed task code with its configuration.
pub struct Verified {
    config: Config,
    app: App,
}

// Written out: what is derived is proved anew wherever a value is let go.
impl Drop for Verified {
    fn drop(self) {
        let Verified { config: _, app: _ } = self;
    }
}

impl Model for Verified {
    ghost use Rattle.code_rules.specs.WellFormed.{WellFormed};
    ghost use Rattle.task_verify.specs.Accepted.{VerifiedCode};

    ghost Value = { VerifiedCode };

    ghost view = { λ verified. record { config = verified.config; app = verified.app } };

    ghost invariant = { λ verified. WellFormed verified.config verified.app };
}

impl Verified {
    /// Task code that is well formed with its configuration.
    pub fn new(config: Config, app: App) -> Verified
        requires { WellFormed config app }
        ensures { result ≡ record { config = config; app = app } }
    {
        Verified { config, app }
    }

    /// Both. Takes no memory.
    pub fn parts(self) -> (Config, App)
        ensures is { result ≡ (self.config, self.app) }
        ensures well_formed { WellFormed self.config self.app }
    {
        let Verified { config, app } = self;
        (config, app)
    }

    /// The configuration.
    pub fn config(&self) -> &Config
        ensures is { result.now ≡ self.now.config }
        ensures well_formed { WellFormed self.now.config self.now.app }
    {
        &self.config
    }

    /// The task code.
    pub fn app(&self) -> &App
        ensures is { result.now ≡ self.now.app }
        ensures well_formed { WellFormed self.now.config self.now.app }
    {
        &self.app
    }
}
