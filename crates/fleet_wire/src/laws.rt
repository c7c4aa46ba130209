//! Laws of messages. Each function does nothing: its contract is the law.

ghost use Rattle.std.specs.Prelude.{◌≡◌, ℕ, length};
ghost use Rattle.fleet_name.specs.Types.{Labels, OctetList};
ghost use Rattle.fleet_name.specs.Name.{IsName};
ghost use Rattle.fleet_wire.specs.NameAt.{ReadsName};
ghost use Rattle.fleet_wire.specs.Question.{QuestionData};
ghost use Rattle.fleet_wire.specs.Message.{IsQuery, QueryFails, MessageData, IsReply, IsRead, ReplyFails};
ghost use Rattle.fleet_wire.specs.Outline.{OutlineData, IsOutlineData, IsWhole, octets_of_outline, message_of_outline};
ghost use Rattle.fleet_wire.specs.Query.{lowercase_question, query_octets, query_header};
ghost use Rattle.fleet_wire.specs.declared.header.Header.{Header};
ghost use Rattle.fleet_wire.specs.declared.fault.ReadFault.{ReadFault};

/// At a place of a message there is one name at most, with one end (RFC 1035 4.1.4).
pub fn one_name()
    ensures { (m : OctetList) (p : ℕ) (a b : Labels) (x y : ℕ) → ReadsName m p a x
        → ReadsName m p b y → (a ≡ b) × (x ≡ y) }
{}

/// A message is one query at most: one header, one question, one end.
pub fn one_query()
    ensures { (m : OctetList) (h k : Header) (a b : QuestionData) (x y : ℕ) → IsQuery m h a x
        → IsQuery m k b y → (h ≡ k) × (a ≡ b) × (x ≡ y) }
{}

/// A message is one reply at most.
pub fn one_reply()
    ensures { (m : OctetList) (a b : MessageData) → IsReply m a → IsReply m b → a ≡ b }
{}

/// What reads as a reply is lawful: its owners are names, its RDATA is plain, and there are no
/// records where it was cut off.
pub fn reply_is_read()
    ensures { (m : OctetList) (r : MessageData) → IsReply m r → IsRead r }
{}

/// A message that is a query has no fault as one.
pub fn query_or_fault()
    ensures { (m : OctetList) (h : Header) (q : QuestionData) (past : ℕ) (f : ReadFault)
        → IsQuery m h q past
        → QueryFails m f → ⊥ }
{}

/// A message that is a reply has no fault as one.
pub fn reply_or_fault()
    ensures { (m : OctetList) (r : MessageData) (f : ReadFault) → IsReply m r → ReplyFails m f → ⊥ }
{}

/// A message has one first fault as a query at most.
pub fn one_query_fault()
    ensures { (m : OctetList) (f g : ReadFault) → QueryFails m f → QueryFails m g → f ≡ g }
{}

/// A message has one first fault as a reply at most.
pub fn one_reply_fault()
    ensures { (m : OctetList) (f g : ReadFault) → ReplyFails m f → ReplyFails m g → f ≡ g }
{}

/// `read_reply` reads the octets of an outline as that outline, where it has a question, plain
/// RDATA and TC clear, and fits a message whole.
pub fn reply_reads_back()
    ensures { (o : OutlineData) (q : QuestionData) → IsOutlineData o → IsWhole o q
        → IsReply (octets_of_outline o) (message_of_outline o q) }
{}

/// `read_query` reads the octets of a query as its question, with the name in lower case.
pub fn query_reads_back()
    ensures { (id : ℕ) (q : QuestionData) → IsName q.name
        → IsQuery (query_octets id q) (query_header id) (lowercase_question q)
        (length (query_octets id q)) }
{}
