// Teams: sessions of a node, next to one another, which share a thread.

ghost use Rattle.std.specs.Prelude.{◌≡◌, ◌+◌, ◌*◌, ◌≤◌, ◌↔◌, ◌++◌, [], IfOk, IsTrue, drop, length, take, vec_capacity};
ghost use Rattle.oplog.specs.Limits.{IsConfig, sizes_in};
ghost use Rattle.stress.specs.Dealt.{MakesTeams};
ghost use Rattle.stress.specs.Teams.{AreBack, AreRooms, AreSeated, AreVacant, AreWhole, HavePlayed, IsBehind};

use crate::lines::AnsweredCall;
use crate::players::Playground;
use oplog::Config;
use std::alloc::{AllocError, Global};
use std::mem;
use store::{Batches, Session};

// The sessions that share a thread, by ascending numbers, and what each of them was told.
pub(crate) struct Team<'a> {
    pub sessions: Vec<Session>,
    pub told: Result<Vec<Vec<AnsweredCall<'a>>>, AllocError>,
    // The batches that its sessions do not count.
    pub batches: Batches,
}

/// Whether teams of so many sessions make up the slots of a node.
pub fn makes_teams(config: Config, size: u32) -> bool
    ensures { IsTrue result ↔ MakesTeams config.slots size }
{
    size != 0 && config.slots % size == 0
}

// How many sessions make a team: as many as are wanted, if such teams make up the slots of a node, else one.
pub(crate) fn team_size(config: Config, wanted: u32) -> usize
    requires within { IsConfig config }
    ensures whole { AreWhole (sizes_in config) result }
    ensures wanted { MakesTeams config.slots wanted → result ≡ wanted }
{
    if makes_teams(config, wanted) {
        wanted as usize
    } else {
        1
    }
}

// Ends teams without sessions.
pub(crate) fn dissolve(mut teams: Vec<Team<'_>>)
    requires vacant { AreVacant teams.items }
{
    while let Some(team) = teams.pop() {
        let Team {
            sessions,
            told: _told,
            batches: _batches,
        } = team;
        sessions.destroy_empty();
    }
    teams.destroy_empty();
}

// So many teams without sessions, with room for so many each.
pub(crate) fn rooms<'a>(
    alloc: Global,
    count: usize,
    size: usize,
) -> Result<Vec<Team<'a>>, AllocError>
    ensures { IfOk result (λ v. (length v.items ≡ count) × AreRooms size v.items) }
{
    let mut teams = Vec::with_capacity(alloc, count)?;
    for _team in 0..count {
        let Ok(sessions) = Vec::with_capacity(alloc, size) else {
            dissolve(teams);
            return Err(AllocError);
        };
        teams.push_reserved(Team {
            sessions,
            told: Ok(Vec::new(alloc)),
            batches: Batches::none(),
        });
    }
    Ok(teams)
}

// The first sessions move, so many.
fn fill(sessions: &mut Vec<Session>, to: &mut Vec<Session>, size: usize)
    requires empty { to.old.items ≡ [] }
    requires room { size ≤ vec_capacity to.old }
    requires enough { size ≤ length sessions.old.items }
    ensures moved { to.new.items ≡ take size sessions.old.items }
    ensures left { sessions.new.items ≡ drop size sessions.old.items }
    ensures kept { vec_capacity sessions.new ≡ vec_capacity sessions.old }
{
    for _session in 0..size {
        to.push_reserved(sessions.remove(0));
    }
}

// All sessions go into teams of this size, in their order.
pub(crate) fn enter(sessions: &mut Vec<Session>, teams: &mut [Team<'_>], size: usize)
    requires rooms { AreRooms size teams.old }
    requires all { length sessions.old.items ≡ length teams.old * size }
    ensures gone { (sessions.new.items ≡ []) × (vec_capacity sessions.new ≡ vec_capacity sessions.old) }
    ensures seated { AreSeated size sessions.old.items teams.new }
{
    for number in 0..teams.len() {
        fill(sessions, &mut teams[number].sessions, size);
    }
}

// Joins what the sessions of a team were told to what others were told, one behind the other.
fn joined<'a>(
    all: Result<Vec<AnsweredCall<'a>>, AllocError>,
    told: Result<Vec<Vec<AnsweredCall<'a>>>, AllocError>,
) -> Result<Vec<AnsweredCall<'a>>, AllocError>
    ensures { IfOk result (IsBehind all.entry told.entry) }
{
    let mut all = all?;
    let told = told?;
    for list in &told {
        all.extend_from_slice(list.as_slice())?;
    }
    Ok(all)
}

// The sessions of a team come back, and what they were told comes behind what others were told.
fn give_back<'a>(
    alloc: Global,
    team: &mut Team<'a>,
    sessions: &mut Vec<Session>,
    all: Result<Vec<AnsweredCall<'a>>, AllocError>,
) -> Result<Vec<AnsweredCall<'a>>, AllocError>
    requires room { length sessions.old.items + length team.old.sessions.items ≤ vec_capacity sessions.old }
    ensures moved { sessions.new.items ≡ sessions.old.items ++ team.old.sessions.items }
    ensures vacant { team.new.sessions.items ≡ [] }
    ensures kept { vec_capacity sessions.old ≤ vec_capacity sessions.new }
    ensures told { IfOk result (IsBehind all.entry team.old.told) }
{
    let Ok(()) = sessions.append(&mut team.sessions) else {
        unreachable!()
    };
    joined(all, mem::replace(&mut team.told, Ok(Vec::new(alloc))))
}

// The batches that the sessions of all teams do not count.
pub(crate) fn batches_in(teams: &[Team<'_>]) -> Batches {
    let mut all = Batches::none();
    for team in teams {
        all = all.and(team.batches);
    }
    all
}

// All sessions come back from the teams, in their order. What they were told, in this order.
pub(crate) fn leave<'a, G, C>(
    ground: &Playground<'_, 'a, G, C>,
    teams: &mut [Team<'a>],
    sessions: &mut Vec<Session>,
) -> Result<Vec<AnsweredCall<'a>>, AllocError>
    requires empty { sessions.old.items ≡ [] }
    requires room { length teams.old * ground.now.together ≤ vec_capacity sessions.old }
    requires played { HavePlayed ground.now teams.old }
    ensures vacant { AreVacant teams.new }
    ensures count { length sessions.new.items ≡ length teams.old * ground.now.together }
    ensures back { AreBack ground.now sessions.new.items result }
{
    let mut all = Ok(Vec::new(ground.alloc));
    for number in 0..teams.len() {
        all = give_back(ground.alloc, &mut teams[number], sessions, all);
    }
    all
}
