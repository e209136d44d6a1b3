// One store for all threads: it is opened, each team of sessions makes its calls on a thread of its own, and it is closed.

ghost use Rattle.std.specs.Prelude.{◌≡◌, ◌+◌, ◌*◌, ◌≤◌, ◌<◌, length, Option, All, IfErr, IfOk, MatchResult};
ghost use Rattle.std.specs.Result.{result_ok};
ghost use Rattle.oplog.specs.declared.configuration.OpenError.TheVariants.{NoMemory};
ghost use Rattle.oplog.specs.Limits.{sizes_in};
ghost use Rattle.store.specs.Opening.{ClosedView, IsClosed, last_state};
ghost use Rattle.store.specs.Sessions.{StoreView};
ghost use Rattle.stress.specs.Playing.{IsReady, AreIn, AreNew, IsLeft, IsWritten, MayOpen};
ghost use Rattle.stress.specs.Teams.{AreBack, AreNewTeams, AreRooms, AreWhole, HasPlayed, HavePlayed, IsNewTeam};

use crate::calls::ScriptCall;
use crate::command::Stress;
use crate::gate::Gate;
use crate::lines::{AnsweredCall, WrittenCalls, write_told};
use crate::players::Playground;
use crate::playing::play;
use crate::teams::{Team, batches_in, dissolve, enter, leave, rooms, team_size};
use crate::watching::{Spent, batches_of, nanoseconds_since, time};
use engine::StoreWatcher;
use loader::{Catalogue, StoreState};
use oplog::{Config, OpenError};
use std::alloc::{AllocError, Global};
use std::rt::Clock;
use std::sync::Wait;
use std::sync::atomic::AtomicU64;
use std::thread;
use std::thread::Threads;
use store::{Batches, Session, Store};

// What is left of a store.
#[derive(Drop)]
pub(crate) struct Left {
    // What is written of its calls.
    pub written: WrittenCalls,
    // The state that it ended in.
    pub state: StoreState,
}

// What was opened, where it can fail for want of memory alone.
fn unless_full(
    opened: Result<(Store, Vec<Session>), OpenError>,
) -> Result<(Store, Vec<Session>), AllocError>
    requires memory { IfErr opened (λ e. e ≡ NoMemory) }
    ensures { result_ok result ≡ result_ok opened }
{
    match opened {
        Ok(opened) => Ok(opened),
        Err(OpenError::NoMemory) => Err(AllocError),
        Err(OpenError::OutOfLimits) => unreachable!(),
        Err(OpenError::OtherState) => unreachable!(),
    }
}

// A store of these sizes on a state, or on a new one, with a session for each slot of each node.
fn open(
    alloc: Global,
    config: Config,
    catalogue: Catalogue,
    state: Option<&StoreState>,
) -> Result<(Store, Vec<Session>), AllocError>
    requires opens { MayOpen config catalogue state }
    ensures catalogue { IfOk result (λ t. t.0.catalogue ≡ catalogue) }
    ensures sizes { IfOk result (λ t. t.0.config ≡ sizes_in config) }
    ensures sessions { IfOk result (λ t. AreNew t.0 (config.nodes * config.slots) t.1.items) }
{
    match state {
        None => unless_full(Store::open(alloc, config, catalogue)),
        Some(state) => unless_full(Store::open_on(alloc, config, catalogue, state)),
    }
}

// Ends the store, once all its sessions are back. The state that it ends in.
fn close(store: Store, sessions: Vec<Session>) -> StoreState
    requires whole { AreIn store (store.config.nodes * store.config.slots) sessions.items }
    ensures closed { (closed : ClosedView) × IsClosed store sessions.items closed × (result ≡ last_state closed) }
{
    match store.close(sessions) {
        Ok(closed) => {
            let (state, _) = closed.into_state();
            state
        }
        Err(_) => unreachable!(),
    }
}

// Lets all teams make their calls, each on a thread of its own.
fn play_together<'a, R: Threads + Wait + Sync, G: Gate + Sync, C: Clock + Sync>(
    rt: &R,
    ground: &Playground<'_, 'a, G, C>,
    teams: &mut [Team<'a>],
)
    requires some { 0 < ground.now.sessions }
    requires whole { AreWhole ground.now.store.now.config ground.now.together }
    requires all { length teams.old * ground.now.together ≡ ground.now.sessions }
    requires ready { All (IsReady ground.now.store.now.catalogue) ground.now.calls.now }
    requires new { AreNewTeams ground.now teams.old }
    ensures { HavePlayed ground.now teams.new }
{
    thread::for_each_mut(
        rt,
        teams,
        ground.sessions,
        &|index: usize, team: &mut Team|
            requires whole { AreWhole ground.now.store.now.config ground.now.together }
            requires within { index * ground.now.together + ground.now.together ≤ ground.now.sessions }
            requires ready { All (IsReady ground.now.store.now.catalogue) ground.now.calls.now }
            requires new { IsNewTeam ground.now index team.now }
            ensures { HasPlayed ground.entry.now index team.exit.now }
        { play(rt, ground, index, team) },
    );
}

// Lets all sessions make their calls, and gives them back. What they were told, session by session, and the batches.
fn play_all<'a, R: Threads + Wait + Sync, G: Gate + Sync, C: Clock + Sync>(
    rt: &R,
    ground: &Playground<'_, 'a, G, C>,
    sessions: &mut Vec<Session>,
    mut teams: Vec<Team<'a>>,
) -> (Result<Vec<AnsweredCall<'a>>, AllocError>, Batches)
    requires some { 0 < ground.now.sessions }
    requires whole { AreWhole ground.now.store.now.config ground.now.together }
    requires all { AreNew ground.now.store.now ground.now.sessions sessions.old.items }
    requires ready { All (IsReady ground.now.store.now.catalogue) ground.now.calls.now }
    requires rooms { AreRooms ground.now.together teams.items × (length teams.items * ground.now.together ≡ ground.now.sessions) }
    ensures count { length sessions.new.items ≡ ground.now.sessions }
    ensures back { AreBack ground.now sessions.new.items result.0 }
{
    enter(sessions, &mut teams, ground.together);
    play_together(rt, ground, &mut teams);
    let told = leave(ground, &mut teams, sessions);
    let batches = batches_in(&teams).and(batches_of(sessions));
    dissolve(teams);
    (told, batches)
}

// What is written of what was told, if memory was left.
fn written(
    alloc: Global,
    catalogue: &Catalogue,
    timed: bool,
    told: Result<Vec<AnsweredCall<'_>>, AllocError>,
    spent: Spent,
) -> Result<WrittenCalls, AllocError>
    ensures { IfOk result (λ w. MatchResult told.entry (λ v. IsWritten catalogue.now timed v.items w) (λ _. ⊥)) }
{
    write_told(alloc, catalogue, timed, told?, spent)
}

impl<'t, R: Threads + Wait + Sync, G: Gate + Sync, C: Clock + Sync, V: StoreWatcher> Stress<
    't,
    R,
    G,
    C,
    V,
> {
    // Makes the calls on a store that opens on a state, or on a new one, and closes it. What is left of it.
    pub(crate) fn tell_all(
        &self,
        alloc: Global,
        catalogue: Catalogue,
        state: Option<&StoreState>,
        calls: &[ScriptCall<'_>],
    ) -> Result<Left, AllocError>
        requires opens { MayOpen self.now.config catalogue state }
        requires ready { All (IsReady catalogue) calls.now }
        ensures left { IfOk result (IsLeft self.now.config catalogue self.now.has_history calls.now) }
    {
        let (config, clock) = (self.config, self.clock);
        let count = (config.nodes * config.slots) as usize;
        let together = team_size(config, self.together);
        let teams = rooms(alloc, count / together, together)?;
        self.watcher.opens();
        let opened = open(alloc, config, catalogue, state);
        self.watcher.opened();
        let Ok((store, mut sessions)) = opened else {
            dissolve(teams);
            return Err(AllocError);
        };
        let counter = AtomicU64::new(0);
        let ground = Playground {
            alloc,
            store: &store,
            gate: self.gate,
            counter: if self.has_history {
                Some(&counter)
            } else {
                None
            },
            clock,
            calls,
            sessions: count,
            together,
        };
        let start = time(clock);
        let (told, batches) = play_all(self.rt, &ground, &mut sessions, teams);
        let spent = Spent {
            nanoseconds: nanoseconds_since(clock, start),
            batches,
        };
        let written = written(alloc, store.catalogue(), self.has_history, told, spent);
        let state = close(store, sessions);
        Ok(Left {
            written: written?,
            state,
        })
    }
}
