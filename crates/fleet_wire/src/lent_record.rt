//! Records of a reply that is to be written.

ghost use Rattle.std.specs.Prelude.{◌≡◌};
ghost use Rattle.fleet_name.specs.Name.{wire, labels_of};

/// A line of an outline, a borrowed record of the class IN: its owner in full and in lower case, its
/// type, its TTL in seconds and its RDATA.
#[derive(Drop)]
pub(crate) struct LentRecord<'a> {
    pub(crate) owner: &'a [u8],
    pub(crate) rtype: u16,
    pub(crate) ttl: u32,
    pub(crate) rdata: &'a [u8],
    /// The owner is the octets of a name.
    pub(crate) ghost spells: { owner.now ≡ wire (labels_of owner.now) },
}

/// What fills a slot that has no line yet: a line of the root.
impl Default for LentRecord<'_> {
    fn default() -> Self {
        LentRecord {
            owner: &[0],
            rtype: 0,
            ttl: 0,
            rdata: &[],
        }
    }
}
