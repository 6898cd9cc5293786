//! What follows from the definitions alone. The functions do nothing: each clause is a law.
ghost use Rattle.std.specs.Prelude.{◌≤◌, ℕ, List};
ghost use mathlib.Core.List.{IsPrefix};
ghost use Rattle.sb_holdings.specs.Held.{shown_of};
ghost use Rattle.sb_holdings.specs.Nodes.{Node};
ghost use Rattle.sb_views.specs.declared.event.Event.{Event};
ghost use Rattle.sb_views.specs.Histories.{node_after};

/// Of no owner does the version that is held fall as more happens, whatever it is. So a seat that has seen a version sees
/// it, or a later one, whenever it enters.
pub fn held_never_falls()
    ensures { (opening : Node) (seen later : List Event) (owner : List ℕ) → IsPrefix seen later
        → (shown_of (node_after opening seen).held owner).held ≤ (shown_of (node_after opening later).held owner).held }
{}
