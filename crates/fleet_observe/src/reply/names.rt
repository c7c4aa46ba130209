//! Names in RDATA.

ghost use Rattle.std.specs.Prelude.{◌≡◌, IfOk};
ghost use Rattle.fleet_name.specs.Name.{labels_of};
ghost use Rattle.fleet_observe.specs.RrSet.{SpellsName};

use fleet_name::Name;
use std::alloc::{AllocError, Allocator};

/// The name that these octets are, in full.
pub(crate) fn name_of<A: Allocator>(alloc: A, octets: &[u8]) -> Result<Name<A>, AllocError>
    requires { SpellsName octets.now }
    ensures { IfOk result (λ n. n ≡ labels_of octets.now) }
{
    let name = Name::copy_of(alloc, octets)?;
    prove!(!name.octets().is_empty());
    Ok(name)
}
