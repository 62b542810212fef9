// A case in hand: the case, and its sheet while it is out. The sheet can be neither let go nor lost: it is in hand exactly
// while the case has one out, and it is the case's own.
ghost use Rattle.std.specs.Prelude.{◌≡◌, true};
ghost use Rattle.cases.specs.CaseViews.{view};
ghost use Rattle.transcript.specs.Hands.{in_order};

use cases::case::Case;
use cases::sheet::Sheet;

pub(crate) mod calls;

pub(crate) struct CaseInHand {
    case: Case,
    sheet: Option<Sheet>,
    ghost ordered: { in_order (view case) sheet ≡ true },
}
