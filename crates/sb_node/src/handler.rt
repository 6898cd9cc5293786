//! A node as one end of a session.

use crate::laws::deltas_keep_truth;
use crate::node::NodeCore;
use sb_digest::Digest;
use sb_holdings::Report;
use sb_session::{Handler, ReceivedDelta};
use sb_types::{Delta, Fault, Name};

impl Handler for NodeCore {
    ghost use Rattle.std.specs.Prelude.{◌≡◌};
    ghost use Rattle.std.proofs.Common.{refl, ◌∙◌};
    ghost use Rattle.sb_node.specs.Steps.{Steps, IsReplay};
    ghost use Rattle.sb_node.specs.Acts.{enters_nothing, no_replay, step_replays, replays_on};

    ghost step = { Steps };

    // Nothing changes.
    ghost stays = { λ old new. new ≡ old };

    // The node is a replay of the deltas that were applied.
    ghost grows = { IsReplay };

    fn digest(&mut self, from: Option<Name>, want: bool) -> Result<Digest, Fault> {
        NodeCore::digest(self, from, want)
    }

    fn deltas(&mut self, theirs: &Digest) -> Result<Delta, Fault> {
        NodeCore::deltas(self, theirs)
    }

    fn apply(&mut self, delta: &ReceivedDelta) -> Result<Report, Fault> {
        deltas_keep_truth();
        NodeCore::apply(self, delta.delta())
    }

    ghost enters_nothing = { enters_nothing };

    ghost stays_still = { λ state. refl };

    ghost stays_on = { λ old mid new a b. b ∙ a };

    ghost step_grows = { step_replays };

    ghost grows_still = { no_replay };

    ghost grows_on = { replays_on };
}
