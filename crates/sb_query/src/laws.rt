//! Laws: what follows from the definitions alone. Their functions do nothing.
ghost use Rattle.std.specs.Prelude.{◌≡◌, ℕ, ◌∷◌, ◌++◌, List};
ghost use Rattle.std.specs.List.{flat_map};
ghost use Rattle.sb_codec.specs.declared.message.ask.Ask as ask;
ghost use Rattle.sb_codec.specs.Records.{Row};
ghost use Rattle.sb_codec.specs.Records as records;
ghost use Rattle.sb_views.specs.NodeViews.{NodeView};
ghost use Rattle.sb_query.specs.Pages.{asked_rows, asking_behind, IsLongestPage};
ghost use Rattle.sb_query.specs.Paging.{asks, Lists};

use crate::paging::Pager;

/// Law: a question that asks again after the last row of a page asks for exactly the rows that the page left. So no row
/// is skipped, and none comes twice.
pub fn pages_follow()
    ensures { (question : ask.Ask) (view : NodeView) (front : List Row) (last : Row) (rest : List Row) →
        asked_rows question view ≡ front ++ last ∷ rest → asked_rows (asking_behind last question) view ≡ rest }
{}

/// Law: if each page answers its question from one view, all pages together have exactly the asked rows, each once.
pub fn listings_are_whole<P: Pager>()
    ensures { (view : NodeView) → ((old new : P) (question : ask.Ask) (page : records.Rows) → P.step old (asks question page) new
        → (budget : ℕ) × IsLongestPage budget (asked_rows question view) page)
        → (old new : P) (question : ask.Ask) (pages : List records.Rows) (last : records.Rows) → Lists P.step old question pages last new
        → flat_map (λ p. p.rows) pages ++ last.rows ≡ asked_rows question view }
{}
