//! Laws of what replies mean. Each function does nothing: its contract is the law.

ghost use Rattle.fleet_observe.specs.Observation.{OneKey};
ghost use Rattle.fleet_observe.specs.Lent.{OneLent};
ghost use Rattle.fleet_observe.specs.Walk.{OneWalk};
ghost use Rattle.fleet_observe.specs.DigestOf.{DigestIsSound, DigestOrFault};
ghost use Rattle.fleet_observe.specs.Observations.{OneDigest, OneObserved, EachOnce};

/// A key is of one name, one kind and one type.
pub fn one_key()
    ensures { OneKey }
{}

/// What is lent is one observation at most.
pub fn one_lent()
    ensures { OneLent }
{}

/// From a name there is one walk at most.
pub fn one_walk()
    ensures { OneWalk }
{}

/// A reply has one digest at most, and one list of observations at a moment.
pub fn one_digest()
    ensures meaning { OneDigest }
    ensures observed { OneObserved }
{}

/// A reply with a digest is served, has a walk where it asks for one, and has no fault but
/// `OutOfMemory`.
pub fn digest_or_fault()
    ensures sound { DigestIsSound }
    ensures fault { DigestOrFault }
{}

/// No two observations of a reply at a moment are equal.
pub fn each_once()
    ensures { EachOnce }
{}
