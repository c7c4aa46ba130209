//! Laws of frames. Each function does nothing: its contract is the law.

ghost use Rattle.std.specs.Prelude.{◌≡◌, ◌≤◌, List, [], ◌∷◌, length};
ghost use Rattle.fleet_name.specs.Types.{OctetList};
ghost use Rattle.fleet_observe.specs.Observation.{ObservationData, IsObservation, Observations};
ghost use Rattle.fleet_gossip.specs.Frame.{frame_octets, SpellsFrame};
ghost use Rattle.fleet_gossip.specs.Faults.{FrameFails};
ghost use Rattle.fleet_gossip.specs.Packed.{IsPacked};
ghost use Rattle.fleet_gossip.specs.declared.frame.TheConstants.{VERSION};
ghost use Rattle.fleet_gossip.specs.declared.bounds.TheConstants.{LONGEST_FRAME};
ghost use Rattle.fleet_gossip.specs.declared.fault.FrameFault.{FrameFault};

/// Octets spell one list of observations at most. So decoding undoes encoding.
pub fn one_list()
    ensures { (octets : OctetList) (a b : Observations) → SpellsFrame octets a
        → SpellsFrame octets b
        → a ≡ b }
{}

/// A list has one frame of a version at most. So what `decode` accepts of version `VERSION` is what
/// `encode` writes.
pub fn one_spelling()
    ensures { (list : Observations) (a b : OctetList) → (x : SpellsFrame a list)
        → (y : SpellsFrame b list) → x.version ≡ y.version
        → a ≡ b }
{}

/// A frame that spells a list has no fault.
pub fn list_or_fault()
    ensures { (octets : OctetList) (list : Observations) (f : FrameFault)
        → SpellsFrame octets list
        → FrameFails octets f → ⊥ }
{}

/// Octets have one first fault at most.
pub fn one_fault()
    ensures { (octets : OctetList) (f g : FrameFault) → FrameFails octets f → FrameFails octets g
        → f ≡ g }
{}

/// An observation alone always fits a frame, whatever its name and body.
pub fn entry_fits()
    ensures { (o : ObservationData) → IsObservation o
        → length (frame_octets VERSION (o ∷ [])) ≤ LONGEST_FRAME }
{}

/// A list has one packing at most: its frames are determined.
pub fn one_packing()
    ensures { (list : Observations) (a b : List OctetList) → IsPacked list a
        → IsPacked list b
        → a ≡ b }
{}
