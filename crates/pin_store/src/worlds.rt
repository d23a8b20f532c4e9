//! Answers of both worlds.
ghost use Rattle.std.specs.Prelude.{◌≡◌, [], ◌∷◌};
ghost use Rattle.knox_words.specs.Bits.{bits};
ghost use Rattle.knox_theory.specs.Worlds.{real, ideal};
ghost use Rattle.pin_store.specs.Store.{device, impatient_device, leaked, noisy_device, shown};
ghost use Rattle.pin_store.specs.Events.{guesses, guess_answers, cycles, cycle_answers, odd_and_even, store_answers, leak_answers, in_off, off_answers, in_host, host_answers, in_wire, wire_answers};
ghost use Rattle.pin_store.specs.Events.{calls, call_answers, calls_after_wires, later_call_answers, mixed, mixed_answers, impatient, stuck_answers, patient_answers, noisy, noisy_answers};

/// In Wire: a guess is answered one tick later, and only a right one by 1.
pub fn guesses_are_answered()
    ensures real { real (device 4 shown) [] guesses ≡ guess_answers }
    ensures ideal { ideal (device 4 shown) guesses ≡ guess_answers }
{}

/// A power-cycle keeps the secret, and neither the answer that was shown nor the command; so does a session of the host.
pub fn secrets_are_kept()
    ensures real { real (device 4 shown) [] cycles ≡ cycle_answers }
    ensures ideal { ideal (device 4 shown) cycles ≡ cycle_answers }
{}

/// In Host: a secret that is set is the answer to later questions, behind power-cycles and on the wires too.
pub fn calls_are_answered()
    ensures real { real (device 4 shown) [] calls ≡ call_answers }
    ensures ideal { ideal (device 4 shown) calls ≡ call_answers }
{}

/// The host finds the secret that was set on the wires. Its ticks are under idle inputs, whatever was set on the wires before.
pub fn hosts_tick_idly()
    ensures real { real (device 4 shown) [] calls_after_wires ≡ later_call_answers }
    ensures ideal { ideal (device 4 shown) calls_after_wires ≡ later_call_answers }
{}

/// Calls are answered in Host alone, and reads in Wire alone; a word that is too large is refused.
pub fn modes_are_kept()
    ensures real { real (device 4 shown) [] mixed ≡ mixed_answers }
    ensures ideal { ideal (device 4 shown) mixed ≡ mixed_answers }
{}

/// A driver whose loop runs past its bound gets stuck, and what it did before stays done. The specification doesn't, so the worlds differ.
pub fn drivers_get_stuck()
    ensures real { real (impatient_device 4) [] impatient ≡ stuck_answers }
    ensures ideal { ideal (impatient_device 4) impatient ≡ patient_answers }
    ensures store { real (device 4 shown) [] impatient ≡ patient_answers }
{}

/// The leaking circuit shows the lowest bit of its secret, and the emulator can't: the worlds differ for the first time at the first read, the fourth event.
pub fn leaks_are_answered()
    ensures real { real (device 4 leaked) [] odd_and_even ≡ leak_answers }
    ensures ideal { ideal (device 4 leaked) odd_and_even ≡ store_answers }
    ensures store { real (device 4 shown) [] odd_and_even ≡ store_answers }
{}

/// As it leaves the factory, the device is off: it answers power events alone.
pub fn off_refuses()
    ensures real { real (device 4 shown) [] in_off ≡ off_answers }
    ensures ideal { ideal (device 4 shown) in_off ≡ off_answers }
{}

/// In Host, wires are refused, and so is what is malformed. What was refused changed nothing.
pub fn host_refuses()
    ensures real { real (device 4 shown) [] in_host ≡ host_answers }
    ensures ideal { ideal (device 4 shown) in_host ≡ host_answers }
{}

/// In Wire, calls are refused, and so is what is malformed. What was refused changed nothing.
pub fn wires_refuse()
    ensures real { real (device 4 shown) [] in_wire ≡ wire_answers }
    ensures ideal { ideal (device 4 shown) in_wire ≡ wire_answers }
    ensures leak { ideal (device 4 leaked) in_wire ≡ wire_answers }
{}

/// A power event with words of noise of other widths is refused, and with those of the right ones it is done: the noise is shown in both worlds, whatever
/// the factory noise was.
pub fn noise_is_shown()
    ensures zero { real (noisy_device 4) (bits 1 0 ∷ []) noisy ≡ noisy_answers }
    ensures one { real (noisy_device 4) (bits 1 1 ∷ []) noisy ≡ noisy_answers }
    ensures ideal { ideal (noisy_device 4) noisy ≡ noisy_answers }
{}
