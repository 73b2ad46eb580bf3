//! Laws of the definitions that the contracts of this crate cite. No program calls them.
ghost use Rattle.std.specs.Prelude.{◌≡◌};
ghost use Rattle.nutclient.specs.declared.limits.TheConstants.{HOST_LIMIT, USER_LIMIT, PASSWORD_LIMIT, PORT_LIMIT, DEFAULT_PORT, WAIT_SECONDS, WORD_FAULT};
ghost use Rattle.nutclient.specs.Why.{NoOrderIsGivenUnseen};

/// The most bytes of a host, a user name and a password, the ports, the seconds of a wait, and the
/// status of a bad word.
pub fn numbers()
    ensures host { HOST_LIMIT ≡ 255 }
    ensures user { USER_LIMIT ≡ 64 }
    ensures password { PASSWORD_LIMIT ≡ 256 }
    ensures port { PORT_LIMIT ≡ 65535 }
    ensures default_port { DEFAULT_PORT ≡ 3493 }
    ensures wait { WAIT_SECONDS ≡ 5 }
    ensures words { WORD_FAULT ≡ 2 }
{}

/// If the line of an order was sent whole, and neither `OK` nor an id is printed nor a refusal
/// reported, the line that explains the fault warns of a given order, and nowhere else.
pub fn no_order_is_given_unseen()
    ensures { NoOrderIsGivenUnseen }
{}
