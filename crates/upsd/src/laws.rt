//! The numbers of the program. No program calls it.
ghost use Rattle.std.specs.Prelude.{◌≡◌, codes};
ghost use Rattle.upsd.specs.declared.ending.TheConstants.{DONE, FAULT, WORD_FAULT};
ghost use Rattle.upsd.specs.declared.task.TheConstants.{DEFAULT_ADDRESS};

/// The statuses and the default address.
pub fn numbers()
    ensures done { DONE ≡ 0 }
    ensures fault { FAULT ≡ 1 }
    ensures words { WORD_FAULT ≡ 2 }
    ensures address { DEFAULT_ADDRESS.now ≡ codes "127.0.0.1:3493" }
{}
