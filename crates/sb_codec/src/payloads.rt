//! What is true of every message and payload.

ghost use Rattle.std.specs.Prelude.{◌≡◌, ℕ, ◌≤◌, List, length, true, Ok};
ghost use Rattle.sb_types.specs.Records.{Block};
ghost use Rattle.sb_types.specs.Lengths.{delta_length};
ghost use Rattle.sb_digest.specs.Digests as digests;
ghost use Rattle.sb_digest.specs.Lengths.{digest_length};
ghost use Rattle.sb_codec.specs.Records as records;
ghost use Rattle.sb_codec.specs.Lengths.{rows_length, status_length, ages_length};
ghost use Rattle.sb_codec.specs.declared.message.Message.{Message};
ghost use Rattle.sb_codec.specs.declared.message.Message.TheVariants.{Digest, Delta, Rows, NodeStatus, Ages};
ghost use Rattle.sb_codec.specs.declared.message.ages.OwnerAge.{OwnerAge};
ghost use Rattle.sb_codec.specs.Fields.{AreBytes};
ghost use Rattle.sb_codec.specs.Messages.{is_message, spelling, Spells, IsSole, reading};

/// Every message has exactly one payload, of 1 to 65,530 bytes. Bytes are read as a message exactly if they are its
/// payload.
pub fn one_payload_each()
    ensures spelled { (message : Message) → is_message message ≡ true → Spells (spelling message) message }
    ensures sole { (payload : List ℕ) (message : Message) → Spells payload message → IsSole payload message }
    ensures least { (payload : List ℕ) (message : Message) → Spells payload message → 1 ≤ length payload }
    ensures read { (payload : List ℕ) (message : Message) → Spells payload message → reading payload ≡ Ok message }
    ensures found { (payload : List ℕ) (message : Message) → AreBytes payload → reading payload ≡ Ok message → Spells payload message }
{}

/// How many bytes a payload has, its kind included: of a delta, a digest, a page of rows, the status of a node, and ages.
/// This holds also if their limits are broken.
pub fn payloads_have_these_lengths()
    ensures delta { (blocks : List Block) → length (spelling (Delta blocks)) ≡ delta_length blocks }
    ensures digest { (digest : digests.Digest) → length (spelling (Digest digest)) ≡ digest_length digest }
    ensures page { (page : records.Rows) → length (spelling (Rows page)) ≡ rows_length page.rows }
    ensures status { (status : records.NodeStatus) → length (spelling (NodeStatus status)) ≡ status_length status }
    ensures ages { (ages : List OwnerAge) → length (spelling (Ages ages)) ≡ ages_length ages }
{}
