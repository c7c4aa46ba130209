//! Laws of names. Each function does nothing: its contract is the law.

ghost use Rattle.std.specs.Prelude.{◌≡◌};
ghost use Rattle.fleet_name.specs.Types.{Labels};
ghost use Rattle.fleet_name.specs.Name.{wire};

/// Two lists of labels with the same octets in full are the same list, whether it is a name or not
/// (RFC 1035 3.1).
pub fn one_name()
    ensures { (a b : Labels) → wire a ≡ wire b → a ≡ b }
{}
