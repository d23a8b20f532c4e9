//! Whether the parts fit each other.
ghost use Rattle.std.specs.Prelude.{◌≡◌, [], ◌∷◌, true, false};
ghost use Rattle.emu_machine.specs.Fits.{fits_device};
ghost use Rattle.script_core.specs.declared.parts.Kind.TheVariants.{BootHost, Call, Factory, Rest, Wait};
ghost use Rattle.script_core.specs.Hints.{script_fits};
ghost use Rattle.pin_store.specs.Store.{circuit, driver, emulator, impatient_driver, leaked, noisy_circuit, noisy_emulator, shown, spec};
ghost use Rattle.pin_store.specs.Hinted.{script, script_of_host};

/// The parts of the store and of its variants make a device, and no parts with data of two widths do, nor a noisy circuit with an emulator that knows no noise.
#[tactic(auto, unfolding(emu_machine::specs::Fits::fits_device))]
pub fn parts_fit()
    ensures store { fits_device (circuit 4 shown) (spec 4) (driver 4) (emulator 4) ≡ true }
    ensures leak { fits_device (circuit 4 leaked) (spec 4) (driver 4) (emulator 4) ≡ true }
    ensures small { fits_device (circuit 1 shown) (spec 1) (driver 1) (emulator 1) ≡ true }
    ensures impatient { fits_device (circuit 4 shown) (spec 4) (impatient_driver 4) (emulator 4) ≡ true }
    ensures noisy { fits_device (noisy_circuit 4) (spec 4) (driver 4) (noisy_emulator 4) ≡ true }
    ensures driver { fits_device (circuit 4 shown) (spec 4) (driver 5) (emulator 4) ≡ false }
    ensures emulator { fits_device (circuit 4 shown) (spec 4) (driver 4) (emulator 5) ≡ false }
    ensures noise { fits_device (noisy_circuit 4) (spec 4) (driver 4) (emulator 4) ≡ false }
{}

/// The script is of the form, and so is one with its sections in another order. One that lacks a section isn't, nor one that has a section twice, in the place
/// of another or besides, nor is it of the form for other numbers of operations.
pub fn scripts_fit()
    ensures script { script_fits 2 script ≡ true }
    ensures order { script_fits 2 (script_of_host (Call 0 ∷ Wait ∷ Call 1 ∷ Rest ∷ Factory ∷ BootHost ∷ [])) ≡ true }
    ensures lacks { script_fits 2 (script_of_host (Factory ∷ BootHost ∷ Rest ∷ Call 0 ∷ Call 1 ∷ [])) ≡ false }
    ensures twice { script_fits 2 (script_of_host (Factory ∷ BootHost ∷ Rest ∷ Rest ∷ Call 0 ∷ Call 1 ∷ [])) ≡ false }
    ensures besides { script_fits 2 (script_of_host (Factory ∷ BootHost ∷ Rest ∷ Wait ∷ Call 0 ∷ Call 1 ∷ Call 0 ∷ [])) ≡ false }
    ensures fewer { script_fits 1 script ≡ false }
    ensures more { script_fits 3 script ≡ false }
{}
