//! The definitions at work on a PIN store that is busy for a tick: each clause is computed from the
//! definitions alone.
ghost use Rattle.std.specs.Prelude.{◌≡◌, [], ◌∷◌, true, false};
ghost use Rattle.knox_words.specs.Bits.{bits};
ghost use Rattle.knox_theory.specs.Device.{Replied, OutOfTurns};
ghost use Rattle.knox_lang.specs.Fitting.{fits_driver};
ghost use Rattle.knox_circuit.specs.Ports.{input_widths, output_widths};
ghost use Rattle.driver_machine.specs.Drive.{drive};
ghost use Rattle.driver_machine.specs.Left.{Over, start, ended, reply};
ghost use Rattle.driver_machine.specs.Moves.{move, move_tests};
ghost use Rattle.driver_machine.specs.Slow.{store, cells, driver, waiting};

/// A driver that may not wait is out of turns at once, and its tick before that stays done. One that
/// may wait for a tick replies, also where it waits less.
pub fn bodies_reply()
    ensures stuck { drive store (driver 0) 0 (bits 4 9 ∷ []) (cells 0 0 0) ≡ (OutOfTurns, cells 9 0 1) }
    ensures asked { drive store (driver 0) 1 (bits 4 9 ∷ []) (cells 9 0 0) ≡ (OutOfTurns, cells 9 1 1) }
    ensures set { drive store (driver 1) 0 (bits 4 9 ∷ []) (cells 0 0 0) ≡ (Replied (bits 1 1), cells 9 0 0) }
    ensures right { drive store (driver 1) 1 (bits 4 9 ∷ []) (cells 9 0 0) ≡ (Replied (bits 1 1), cells 9 0 0) }
    ensures wrong { drive store (driver 1) 1 (bits 4 3 ∷ []) (cells 9 0 0) ≡ (Replied (bits 1 0), cells 9 0 0) }
    ensures early { drive store (driver 5) 1 (bits 4 9 ∷ []) (cells 9 0 0) ≡ (Replied (bits 1 1), cells 9 0 0) }
    ensures no_body { drive store (driver 1) 7 [] (cells 9 0 0) ≡ (OutOfTurns, cells 9 0 0) }
{}

/// A move goes directly behind the next tick. A body with nothing but its result left has not ended
/// there: another word of a cell still changes the reply. The next move fixes it.
pub fn bodies_move()
    ensures ticked { (move store (driver 1) (start (driver 1) 2 (bits 4 9 ∷ []) (cells 9 0 0))).cells ≡ cells 9 1 1 }
    ensures going { ended (move store (driver 1) (start (driver 1) 2 (bits 4 9 ∷ []) (cells 9 0 0))) ≡ false }
    ensures told { reply (move store (driver 1) (move store (driver 1) (start (driver 1) 2 (bits 4 9 ∷ []) (cells 9 0 0)))).left ≡ Replied (bits 1 1) }
    ensures changed { reply (move store (driver 1) (record (move store (driver 1) (start (driver 1) 2 (bits 4 9 ∷ []) (cells 9 0 0))) { cells = cells 9 0 1 })).left ≡ Replied (bits 1 0) }
{}

/// The test of a loop that may do no more turns is an outcome too, also where it ends the body.
pub fn tests_are_met()
    ensures stuck { move_tests store (driver 0) (waiting 0 [] (cells 9 0 1)) ≡ true ∷ [] }
    ensures over { (move store (driver 0) (waiting 0 [] (cells 9 0 1))).left ≡ Over OutOfTurns }
    ensures ready { move_tests store (driver 0) (waiting 0 [] (cells 9 0 0)) ≡ false ∷ [] }
    ensures done { (move store (driver 0) (waiting 0 [] (cells 9 0 0))).left ≡ Over (Replied (bits 1 1)) }
{}

/// The driver is one of the store, and of no store with another number of cells.
pub fn drivers_fit()
    ensures store { fits_driver (input_widths store) (output_widths store) 3 (driver 1) ≡ true }
    ensures cells { fits_driver (input_widths store) (output_widths store) 2 (driver 1) ≡ false }
    ensures outputs { fits_driver (input_widths store) (1 ∷ []) 3 (driver 1) ≡ false }
{}
