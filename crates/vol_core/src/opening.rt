use std::marker::Brand;

/// What a volume was opened with. It has no calls: its members stand for what was there when the session began, so that what is
/// kept of the volume can be said of it.
pub trait Opening {
    ghost use Rattle.image_view.specs.Found.{Found};
    ghost use Rattle.dev_model.specs.Devices.{DevicesState};

    /// What was found on the devices, in the session that begins.
    ghost found: { Found };

    /// What the devices showed then.
    ghost start: { DevicesState };
}

impl Opening for Brand {
    ghost use Rattle.vol_core.specs.Safety.{nothing_found};
    ghost use Rattle.dev_model.specs.Devices.{no_fault_counts};
    ghost use Rattle.std.specs.Prelude.{[]};

    ghost found = { nothing_found };

    ghost start = { record { sizes = []; moment = 0; disks = λ _. []; faults = no_fault_counts } };
}
