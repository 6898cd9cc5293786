//! One of the two copies of the view, and the operations by which both follow.
ghost use Rattle.std.specs.Prelude.{◌≡◌};

use crate::change::Change;
use crate::history::Position;
use crate::node_view::NodeView;
use left_right::Absorb;
use sb_types::Name;
use std::alloc::AllocError;
use std::marker::Model;

/// One copy: the view, and how far the prefix goes whose view it is.
#[derive(Drop)]
pub struct ViewCopy {
    view: NodeView,
    position: Position,
}

impl Model for ViewCopy {
    ghost use Rattle.sb_views.specs.Copies as copies;
    ghost use Rattle.std.specs.Coded.{codes};
    ghost use Rattle.std.specs.FinMap.{code};

    ghost Value = { copies.ViewCopy };

    ghost coded = { Prim.hlevel (codes, code) };

    ghost view = { λ s. record { position = s.position; view = s.view } };
}

/// An operation on a copy.
#[derive(Drop)]
pub enum Operation {
    /// An owner is changed so.
    Make(Name, Change),
    /// The copy is the view of these events.
    Reach(Position),
}

impl Absorb<Operation> for ViewCopy {
    type State = ViewCopy;

    ghost use Rattle.sb_views.specs.Operations.{after_operation};

    ghost state = { λ s. s };

    ghost applied = { after_operation };

    fn absorb_first(&mut self, operation: &Operation, _other: &ViewCopy) -> Result<(), AllocError> {
        match operation {
            Operation::Make(owner, change) => self.view.change(owner, change.lent()),
            Operation::Reach(position) => {
                self.position = position.copy();
                Ok(())
            }
        }
    }
}

impl ViewCopy {
    pub(crate) fn new(view: NodeView, position: Position) -> ViewCopy
        ensures { result ≡ record { position = position; view = view } }
    {
        ViewCopy { view, position }
    }

    pub(crate) fn position(&self) -> &Position
        ensures { result.now ≡ self.now.position }
    {
        &self.position
    }

    pub(crate) fn view(&self) -> &NodeView
        ensures { result.now ≡ self.now.view }
    {
        &self.view
    }
}
