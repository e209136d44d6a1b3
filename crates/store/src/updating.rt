// An update of a session whose calls answer at once, by four takes: it is posted, and goes on in the same call.

ghost use Rattle.std.specs.Prelude.{◌≡◌, None, Ok, true};
ghost use Rattle.verifier.specs.declared.refusal.Mode.TheVariants.{Update};
ghost use Rattle.replica.specs.StoreMeaning.{is_operation};
ghost use Rattle.replica.specs.Refusals.{early_refusal};
ghost use Rattle.store.specs.Looks.{IsRefused};
ghost use Rattle.store.specs.Sessions.{IsOf, MayUpdate, SessionGoesOn};
ghost use Rattle.store.specs.Asking.{TellsTried, answer_by, tried_with};
ghost use Rattle.store_steps.specs.Views.{op_of};

use crate::answers::Answer;
use crate::polled::Polled;
use crate::session::answer_of;
use crate::store::Store;
use oplog::OpRef;
use replica::{StoreRefused, check_call};
use store_steps::{Came, Deed, Here, try_ask};
use verifier::Mode;

/// What an update has come to in the call that asked for it.
///
/// # Examples
///
/// ```
/// use store::{Answer, Config, Polled, Store, StoreRefused, Tried, load_manifest};
///
/// let manifest = "map array 8 16\nprogram five update 0 five.hex\n";
/// let files = [("five.hex", "b7000000050000009500000000000000")]; // a program that replies 5
/// let catalogue = load_manifest(rt.alloc(), manifest, &files)?;
/// let config = Config { nodes: 1, slots: 1, window: 16, limit: 1, spare: 0 };
/// let (store, mut sessions) = Store::open(rt.alloc(), config, catalogue)?;
/// let mut polled = Polled::new(sessions.remove(0));
/// sessions.destroy_empty();
///
/// let first = polled.try_update(&store, 0, &[])?;
/// let second = polled.try_update(&store, 0, &[])?; // the history has one record at most
/// assert_eq!(rt; first, Tried::Ends(Ok(Answer { index: 0, reply: 5 })));
/// assert_eq!(rt; second, Tried::Ends(Err(StoreRefused::Ended)));
/// ```
#[derive(Debug, Drop, PartialEq, Eq)]
pub enum Tried {
    /// Another session held the desk of the node, and nothing has changed.
    Busy,
    /// The update is posted, and not answered. [`Polled::try_complete`] goes on with it.
    Waits,
    /// The update's answer, or S4: the history has all its records, and this request has none.
    Ends(Result<Answer, StoreRefused>),
}

// The answer that a session has by this deed, if it has one.
fn answer_by(deed: Deed) -> Option<Result<Answer, StoreRefused>>
    ensures answer { result ≡ answer_by deed }
{
    match deed {
        Deed::Busy | Deed::Went => None,
        Deed::Collected(reply) => Some(answer_of(reply)),
    }
}

// What a posted update has come to.
fn tried_with(answer: Option<Result<Answer, StoreRefused>>) -> Tried
    ensures tried { result ≡ tried_with answer }
{
    match answer {
        None => Tried::Waits,
        Some(answer) => Tried::Ends(answer),
    }
}

impl Polled {
    // Has an operation that is not refused posted, and goes on with it.
    #[inline(always)]
    fn ask(&mut self, store: &Store, op: &OpRef<'_>) -> Tried
        requires own { IsOf store.now self.old }
        requires idle { self.old.note.pending ≡ None }
        requires update { is_operation Update store.now.catalogue op.now ≡ true }
        ensures session { SessionGoesOn store.now self.old self.new }
        ensures told { TellsTried store.now self.old self.new op.now (Ok result) }
    {
        let shared = store.shared();
        let Polled {
            seat,
            caller,
            batch,
            replies,
            stage,
            at_once,
            ..
        } = &mut *self;
        let here = Here {
            shared,
            caller: *caller,
        };
        match try_ask(here, seat, op, batch, replies) {
            None => return Tried::Busy,
            Some(Came::Went(at, deed)) => {
                *stage = at;
                *at_once = true;
                return tried_with(answer_by(deed));
            }
            Some(Came::Posted(at)) => {
                *stage = at;
                *at_once = true;
            }
        }
        tried_with(self.try_complete(store))
    }

    /// Posts an update as [`try_post`](Polled::try_post) does, and goes on with it as [`try_complete`](Polled::try_complete) does. It goes by four
    /// takes as [`Session::update`](crate::Session::update): in the same hold of the desk it claims the requests of its node, if nobody combines. If
    /// nobody holds a place that it takes, it is answered.
    ///
    /// # Errors
    ///
    /// As with [`try_post`](Polled::try_post).
    ///
    /// # Examples
    ///
    /// ```
    /// use store::{Answer, Config, Polled, Store, Tried, load_manifest};
    ///
    /// let manifest = "map array 8 16\nprogram five update 0 five.hex\n";
    /// let files = [("five.hex", "b7000000050000009500000000000000")]; // a program that replies 5
    /// let catalogue = load_manifest(rt.alloc(), manifest, &files)?;
    /// let config = Config { nodes: 1, slots: 1, window: 16, limit: 100, spare: 0 };
    /// let (store, mut sessions) = Store::open(rt.alloc(), config, catalogue)?;
    /// let mut polled = Polled::new(sessions.remove(0));
    /// sessions.destroy_empty();
    ///
    /// let tried = polled.try_update(&store, 0, &[])?;
    /// assert_eq!(rt; tried, Tried::Ends(Ok(Answer { index: 0, reply: 5 }))); // nobody else is there
    /// ```
    pub fn try_update(
        &mut self,
        store: &Store,
        program: u16,
        argument: &[u8],
    ) -> Result<Tried, StoreRefused>
        requires own { IsOf store.now self.old }
        requires idle { self.old.note.pending ≡ None }
        ensures session { SessionGoesOn store.now self.old self.new }
        ensures early { IsRefused (early_refusal store.now.catalogue Update program argument.now) result (self.new ≡ self.old) }
        ensures told { MayUpdate store.now program argument.now → TellsTried store.now self.old self.new (op_of program argument.now) result }
    {
        // This opens the session's invariant for the proof: a refused call uses no other part of the session.
        let _seat = &self.seat;
        check_call(store.catalogue(), Mode::Update, program, argument)?;
        let op = OpRef::run(program, argument);
        Ok(self.ask(store, &op))
    }
}
