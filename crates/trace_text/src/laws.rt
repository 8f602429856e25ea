//! Laws of the definitions.
ghost use Rattle.std.specs.Prelude.{◌≡◌, ◌++◌, Bool, List};
ghost use Rattle.sloth_base.specs.declared.service.Stamped.{Stamped};
ghost use Rattle.sloth_base.specs.declared.image.Image.{Image};
ghost use Rattle.trace_text.specs.Texts.{ends_idle, text_after};
ghost use Rattle.trace_text.specs.declared.events.Form.{Form};

/// The text of a run is that of its first part, and then that of the rest.
pub fn texts_append()
    ensures { (image : Image) (form : Form) (after_idle : Bool) (events more : List Stamped) →
        text_after image form after_idle (events ++ more) ≡
        text_after image form after_idle events ++ text_after image form (ends_idle after_idle events) more }
{}
