// A line of places that a session wins.
ghost use Rattle.std.specs.Prelude.{◌≡◌, ◌<◌, ◌^◌, [], IfSome};
ghost use Rattle.ownlock.specs.Words.{HasSpot, won_by};
ghost use Rattle.ownlock.specs.declared.known.Known.{Known};
ghost use Rattle.ownlock.specs.Invariant.{StepsAs};

use crate::rule::{Keep, Pass, Steps};
use crate::shelved::Shelved;
use crate::words::{Spot, WINNERS};

/// A line of places that a session has won. Until it is let go, no other session takes a place there, and its own takes and puts there are looks. What
/// they say is what other takes and puts say: that a line is won promises nothing but speed. It is let go by [`let_go`](crate::Shelf::let_go): a line whose
/// `Won` is dropped stays won.
#[derive(Drop)]
pub struct Won {
    pub(crate) word: u64,
    pub(crate) spot: Spot,
}

// Wins the line of this place if none of its places is held, and nobody has won it.
#[inline(always)]
pub(crate) fn win<V: Shelved>(
    steps: &Steps<V>,
    pass: &mut Pass<V>,
    spot: Spot,
    session: usize,
) -> Option<Won>
    requires own { pass.old.table_id ≡ steps.now.table_id }
    requires there { HasSpot steps.now.table_id spot }
    requires few { won_by session < 2 ^ 64 }
    ensures same { (pass.new.table_id ≡ pass.old.table_id) × (pass.new.me ≡ pass.old.me) }
    ensures won { IfSome result (λ w. (w.word ≡ won_by session) × (w.spot ≡ spot)) }
{
    let word = WINNERS * (session as u64 + 1);
    if steps.compare_exchange::<Keep>(pass, spot.word, 0, word) != 0 {
        return None;
    }
    Some(Won { word, spot })
}

// Lets a line go that the session has won, and where it holds nothing.
#[inline(always)]
pub(crate) fn free_line<V: Shelved>(steps: &Steps<V>, pass: &mut Pass<V>, won: Won)
    requires own { pass.old.table_id ≡ steps.now.table_id }
    requires there { HasSpot steps.now.table_id won.spot }
    requires by { (k : Known V.Progress V.SessionNote V) × StepsAs pass.old.me k × (k.held ≡ []) × (won.word ≡ won_by k.session) }
    ensures same { (pass.new.table_id ≡ pass.old.table_id) × (pass.new.me ≡ pass.old.me) }
{
    let Won { word, spot } = won;
    let _ = steps.compare_exchange::<Keep>(pass, spot.word, word, 0);
}
