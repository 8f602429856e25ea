//! Laws of pictures.
ghost use Rattle.std.specs.Prelude.{ℕ, ◌≡◌, ◌≤◌, ◌+◌, List, length, map};
ghost use Rattle.sloth_base.specs.Arrivals.{AreRisingMoments, moments};
ghost use Rattle.sloth_base.specs.declared.service.Arrival.{Arrival};
ghost use Rattle.sloth_base.specs.declared.image.Image.{Image};
ghost use Rattle.run_samples.specs.Admissions.{run_admissions};
ghost use Rattle.run_samples.specs.Samples.{AreSamples};
ghost use Rattle.run_samples.specs.declared.admissions.Admission.{Admission};
ghost use Rattle.run_samples.specs.declared.samples.Sample.{Sample};

/// Of each arrival of the counts of a run, and of no other, it is told once whether it is kept or lost, in their order.
pub fn arrivals_are_told_once()
    ensures { (image : Image) (arrivals : List Arrival) (samples : List Sample) → AreSamples image arrivals 0 samples
        → AreRisingMoments 0 arrivals
        → (from k : ℕ) → from + k ≤ length samples
        → map (λ (a : Admission). a.arrival) (run_admissions image arrivals samples from k)
        ≡ moments from (from + k) arrivals }
{}
