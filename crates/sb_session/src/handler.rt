ghost use Rattle.std.specs.Prelude.{◌≡◌, false, IfErr};
ghost use Rattle.sb_session.specs.Handlers.{Act, tells, gives, applies, may_enter, IsRefusal};

use crate::received::ReceivedDelta;
use sb_digest::Digest;
use sb_holdings::Report;
use sb_types::{Delta, Fault, Name};

/// What a session asks: a node, or what guards one. It refuses a call with `NoMemory`, or with `TurnsSpent` if it grants the
/// session no more. A call that was refused has entered nothing.
pub trait Handler {
    /// By such a call, with such an answer, it may come from the one state to the other.
    ghost step: { Self → Act → Self → Type 0 };

    /// It may come from the one state to the other by calls that enter nothing.
    ghost stays: { Self → Self → Type 0 };

    /// What stays true from the one state to the other over any calls, as that nothing goes back.
    ghost grows: { Self → Self → Type 0 };

    /// How far owners are held, from a name on, or from the least if none is given. `want` says whether a digest is wanted in
    /// answer.
    fn digest(&mut self, from: Option<Name>, want: bool) -> Result<Digest, Fault>
        ensures step { step self.old (tells from want result) self.new }
        ensures fault { IfErr result IsRefusal };

    /// The writes that the sender of a digest lacks.
    fn deltas(&mut self, theirs: &Digest) -> Result<Delta, Fault>
        ensures step { step self.old (gives theirs.now result) self.new }
        ensures fault { IfErr result IsRefusal };

    /// Takes a delta that a peer sent, and says how each of its blocks ended.
    fn apply(&mut self, delta: &ReceivedDelta) -> Result<Report, Fault>
        ensures step { step self.old (applies delta.now result) self.new }
        ensures fault { IfErr result IsRefusal };

    /// Only a delta that was applied enters anything.
    ghost enters_nothing: { (old new : Self) (act : Act) → may_enter act ≡ false → step old act new → stays old new };

    /// No call enters nothing.
    ghost stays_still: { (state : Self) → stays state state };

    /// What enters nothing twice enters nothing.
    ghost stays_on: { (old mid new : Self) → stays old mid → stays mid new → stays old new };

    /// It stays true over each call,
    ghost step_grows: { (old new : Self) (act : Act) → step old act new → grows old new };

    /// over none,
    ghost grows_still: { (state : Self) → grows state state };

    /// and over calls after others.
    ghost grows_on: { (old mid new : Self) → grows old mid → grows mid new → grows old new };
}
