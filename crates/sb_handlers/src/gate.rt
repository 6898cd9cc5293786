//! Gates: a session of a pool passes one before it applies a delta, and before it sends the delta that answers a digest.
ghost use Rattle.std.specs.Prelude.{◌≡◌, ◌⊎◌, MatchBool};

use crate::reported_versions::Arrival;
use sb_digest::Digest;
use sb_holdings::{BlockEnd, Report};
use sb_session::{Ended, Handler, ReceivedDelta};
use sb_types::{Block, Delta, Fault, Name};

/// At which point a session asks its gate.
#[derive(Clone, Copy, Debug, PartialEq, Eq)]
pub enum GatePoint {
    /// It is about to apply a delta.
    BeforeApply,
    /// It has made the delta that answers a digest, and not sent it.
    AfterAnswer,
}

/// Says which sessions may go on. They ask it outside of any lock, and it may take its time.
pub trait Gate {
    ghost use Rattle.std.specs.Prelude.{ℕ};
    ghost use Rattle.sb_handlers.specs.declared.gate.GatePoint.{GatePoint};

    /// What holds where it lets the session of this number go on at this point: nothing need.
    ghost lets: { Self → ℕ → GatePoint → Type 0 };

    /// What holds where it turns the session away: nothing need.
    ghost turns_away: { Self → ℕ → GatePoint → Type 0 };

    /// Whether the session may go on. If not, it ends with `TurnsSpent`.
    fn pass(&self, session: u64, point: GatePoint) -> bool
        ensures { MatchBool result (lets self.now session point) (turns_away self.now session point) };

    /// Sessions call it for each digest of a peer, before they answer it. The peer's connection came so.
    fn digest_came(&self, _arrival: &Arrival, _theirs: &Digest) {}

    /// Sessions call it after each delta that entered something.
    fn entered(&self, _delta: &Delta) {}

    /// Sessions call it for each owner whose held version a delta raised.
    fn heard(&self, _owner: &Name) {}

    /// Sessions call it after each delta with a block that does not join on to what is held.
    fn missed(&self) {}

    /// A worker calls it once the session of this number is over.
    fn ended(&self, _session: u64, _ended: &Result<Ended, Fault>) {}
}

/// A gate that every session passes.
#[derive(Clone, Copy, Debug)]
pub struct Open;

impl Gate for Open {
    ghost lets = { λ gate session point. Unit {0} };

    // It turns nobody away.
    ghost turns_away = { λ gate session point. ⊥ };

    fn pass(&self, _session: u64, _point: GatePoint) -> bool {
        true
    }
}

/// Whether a block that ended so brought something that was not held.
fn has_entered(end: &BlockEnd) -> bool {
    match end {
        BlockEnd::Taken(_) => true,
        BlockEnd::TooManyKeys(count) | BlockEnd::NoMemory(count) => *count != 0,
        _ => false,
    }
}

/// A version up to which a block that ended so was entered, at least; none if nothing was. Of a block that was entered in part, entries
/// that were held before may come first.
fn last_entered(block: &Block, end: &BlockEnd) -> Option<u64> {
    match end {
        BlockEnd::Taken(_) => Some(block.upto()),
        BlockEnd::TooManyKeys(count) | BlockEnd::NoMemory(count) => {
            let index = count.checked_sub(1)? as usize;
            Some(block.entries().get(index)?.version())
        }
        _ => None,
    }
}

/// Whether a block that ended so is sure to have raised the version up to which its owner is held. A block of a stage does that once
/// the stage is whole: once it goes up to the floor.
fn is_risen(block: &Block, end: &BlockEnd) -> bool {
    last_entered(block, end).is_some_and(|version| version >= block.floor())
}

/// Whether writes are missing before those of a block that ended so.
fn is_gap(end: &BlockEnd) -> bool {
    matches!(end, BlockEnd::Gap)
}

/// Tells a gate whose held version the blocks of a delta raised.
fn tell_heard<G: Gate>(gate: &G, blocks: &[Block], report: &Report) {
    for (block, end) in blocks.iter().zip(report.ends()) {
        if is_risen(block, end) {
            gate.heard(block.owner());
        }
    }
}

/// A handler behind a gate, for the session of this number.
#[derive(Drop)]
pub struct GatedHandler<'a, H, G> {
    inner: H,
    gate: &'a G,
    session: u64,
    arrival: Arrival,
}

impl<'a, H: Handler, G: Gate> GatedHandler<'a, H, G> {
    pub fn new(inner: H, gate: &'a G, session: u64, arrival: Arrival) -> GatedHandler<'a, H, G>
        ensures inner { result.inner ≡ inner }
        ensures gate { result.gate.now ≡ gate.now }
        ensures session { result.session ≡ session }
    {
        GatedHandler {
            inner,
            gate,
            session,
            arrival,
        }
    }

    pub fn into_inner(self) -> H
        ensures { result ≡ self.entry.inner }
    {
        let GatedHandler {
            inner,
            gate: _,
            session: _,
            arrival: _,
        } = self;
        inner
    }
}

impl<H: Handler, G: Gate> Handler for GatedHandler<'_, H, G> {
    ghost use Rattle.std.proofs.Common.{◌≡◌, refl, ◌∙◌, ⊎_elim, subst, sym};
    ghost use Rattle.sb_handlers.specs.declared.gate.GatePoint.TheVariants.{BeforeApply};
    ghost use Rattle.sb_handlers.specs.Gates.{GatedStep, IsShut, let-enters};

    ghost step = { λ old act new. (new.gate.now ≡ old.gate.now) × (new.session ≡ old.session)
        × GatedStep (G.lets old.gate.now old.session) (G.turns_away old.gate.now old.session) H.step H.stays H.grows old.inner act new.inner };

    ghost stays = { λ old new. (new.gate.now ≡ old.gate.now) × (new.session ≡ old.session) × H.stays old.inner new.inner };

    // A gate that lets no delta through has entered nothing.
    ghost grows = { λ old new. (new.gate.now ≡ old.gate.now) × (new.session ≡ old.session) × H.grows old.inner new.inner
        × (IsShut (G.lets old.gate.now old.session) → H.stays old.inner new.inner) };

    fn digest(&mut self, from: Option<Name>, want: bool) -> Result<Digest, Fault> {
        self.inner.digest(from, want)
    }

    fn deltas(&mut self, theirs: &Digest) -> Result<Delta, Fault> {
        self.gate.digest_came(&self.arrival, theirs);
        let delta = self.inner.deltas(theirs)?;
        if !self.gate.pass(self.session, GatePoint::AfterAnswer) {
            return Err(Fault::TurnsSpent);
        }
        Ok(delta)
    }

    fn apply(&mut self, delta: &ReceivedDelta) -> Result<Report, Fault> {
        if !self.gate.pass(self.session, GatePoint::BeforeApply) {
            return Err(Fault::TurnsSpent);
        }
        let report = self.inner.apply(delta)?;
        tell_heard(self.gate, delta.blocks(), &report);
        if report.ends().iter().any(has_entered) {
            self.gate.entered(delta.delta());
        }
        if report.ends().iter().any(is_gap) {
            self.gate.missed();
        }
        Ok(report)
    }

    ghost enters_nothing = { λ old new act none step. (
      step.0,
      step.1,
      ⊎_elim (λ own. H.enters_nothing old.inner new.inner act none own.1) (λ turned. turned.1.0) step.2,
    ) };

    ghost stays_still = { λ state. (refl, refl, H.stays_still state.inner) };

    ghost stays_on = { λ old mid new first then. (then.0 ∙ first.0, then.1 ∙ first.1, H.stays_on old.inner mid.inner new.inner first.2 then.2) };

    ghost step_grows = { λ old new act step. (
      step.0,
      step.1,
      ⊎_elim (λ own. H.step_grows old.inner new.inner act own.1) (λ turned. turned.1.1) step.2,
      ⊎_elim
          (λ own shut. H.enters_nothing old.inner new.inner act (let-enters (G.lets old.gate.now old.session) act own.0 shut) own.1)
          (λ turned shut. turned.1.0) step.2,
    ) };

    ghost grows_still = { λ state. (refl, refl, H.grows_still state.inner, λ shut. H.stays_still state.inner) };

    ghost grows_on = { λ old mid new first then. (
      then.0 ∙ first.0,
      then.1 ∙ first.1,
      H.grows_on old.inner mid.inner new.inner first.2 then.2,
      λ shut. H.stays_on old.inner mid.inner new.inner (first.3 shut)
          (then.3 (subst (λ session. IsShut (G.lets mid.gate.now session)) (sym first.1)
          (subst (λ gate. IsShut (G.lets gate old.session)) (sym first.0) shut))),
    ) };
}
