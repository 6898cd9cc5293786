use sb_codec::Bye;
use sb_digest::Digest;
use sb_holdings::Report;
use sb_types::Delta;

/// What comes of a message that was taken: what to send, how the blocks of a delta ended, or that a Bye ended the session.
#[derive(Debug, Drop)]
pub enum Replies {
    /// The peer's Hello was taken.
    Greeted,
    /// The delta for a digest is to be sent.
    Answered(Delta),
    /// The delta for a digest is to be sent, and then the own digest, which wants none in answer.
    Exchanged(Delta, Digest),
    /// The blocks of a delta ended so.
    Applied(Report),
    /// The peer said Bye.
    Ended(Bye),
}
