//! The table and its calls.

ghost use Rattle.std.specs.Prelude.{◌≡◌, ◌↔◌, ◌<◌, [], IsTrue, length, vec_len, vec_capacity, slice_get, false, IfOk, IfSome};
ghost use Rattle.fbc_levels.specs.Levels.{join};
ghost use Rattle.fbc_levels.specs.LockState.{IsLawful, IsDead};
ghost use Rattle.fbc_levels.specs.LockState as state;
ghost use Rattle.fbc_levels.specs.Waits.{waits_for_number};
ghost use Rattle.fbc_lock_table.specs.Answers.{least_data_of, MayAsk, lacks_room, NeedsRoom, NeedsWay, AskNamesDead, LookNamesDead, answer_to_ask, answer_to_look};
ghost use Rattle.fbc_lock_table.specs.Effects.{after_ask, lowered, withdrawn, died, after_grant, without, MayGrant};
ghost use Rattle.fbc_lock_table.specs.Waiters.{waiters};

use crate::answers::{Asked, Looked};
use crate::requests;
use fbc_levels::{Level, Request, Resource, Series};
use std::alloc::{AllocError, Global};
use std::marker::Model;

/// The lock table, seen as its capacity and its requests in the order of asking.
#[derive(Drop)]
pub struct LockTable {
    capacity: u32,
    waiters: u32,
    requests: Vec<Request>,
}

impl Model for LockTable {
    ghost use Rattle.std.specs.Prelude.{◌≡◌, ◌≤◌, vec_capacity};
    ghost use Rattle.fbc_levels.specs.LockState.{LockState, IsLawful};
    ghost use Rattle.fbc_lock_table.specs.Waiters.{waiting_of};

    ghost Value = { LockState };

    ghost view = { λ t. record { capacity = t.capacity; requests = t.requests.items } };

    ghost invariant = { λ t.
        IsLawful (record { capacity = t.capacity; requests = t.requests.items })
        × (t.capacity ≤ vec_capacity t.requests)
        × (t.waiters ≡ waiting_of t.requests.items) };
}

impl LockTable {
    /// An empty table with all the memory that it will ever take.
    pub fn new(alloc: Global, capacity: u32) -> Result<LockTable, AllocError>
        ensures { IfOk result (λ t. t ≡ record { capacity = capacity; requests = [] }) }
    {
        let requests = Vec::with_capacity(alloc, capacity as usize)?;
        Ok(LockTable {
            capacity,
            waiters: 0,
            requests,
        })
    }

    /// How many requests there are.
    pub fn used(&self) -> u32
        ensures count { result ≡ length self.now.requests }
        ensures lawful { IsLawful self.now }
    {
        let _capacity = self.capacity;
        self.requests.len() as u32
    }

    /// How many requests wait.
    pub fn waiters(&self) -> u32
        ensures { result ≡ waiters self.now }
    {
        self.waiters
    }

    /// The level that the owner is granted on the resource: none where it has no request.
    pub fn granted(&self, owner: u32, resource: Resource) -> Level
        ensures { result ≡ state.granted_of self.now owner resource }
    {
        match requests::request_of(&self.requests, owner, resource) {
            Some(request) => request.granted,
            None => Level::Free,
        }
    }

    /// The least data word over the requests of the series that living owners hold in EX.
    pub fn least_data(&self, series: Series) -> Option<u32>
        ensures { result ≡ least_data_of self.now series }
    {
        requests::least_data_of(&self.requests, series)
    }

    /// Marks the owner dead. Its requests stay until they are purged.
    pub fn die(&mut self, owner: u32)
        ensures after { self.new ≡ died self.old owner }
        ensures dead { IsDead self.new owner }
    {
        requests::mark_dead(&mut self.requests, owner);
    }

    /// Whether the owner needs a new request for the resource and there is no place for one.
    fn lacks_room(&self, owner: u32, resource: Resource) -> bool
        ensures { result ≡ lacks_room self.now owner resource }
    {
        requests::request_of(&self.requests, owner, resource).is_none()
            && self.used() == self.capacity
    }

    /// The request of the least dead owner.
    fn first_dead(&self) -> Option<Request>
        ensures value { result ≡ state.dead_of self.now }
        ensures dead { IfSome result (λ r. IsDead self.now r.owner) }
    {
        requests::dead_of(&self.requests)
    }

    /// What an ask answers.
    fn answer(&self, owner: u32, resource: Resource, level: Level, wait: bool) -> Asked
        ensures answer { result ≡ answer_to_ask self.now owner resource level wait }
        ensures room { NeedsRoom result (lacks_room self.now owner resource) }
        ensures way { NeedsWay result (state.holder_of self.now owner resource level) }
        ensures dead { AskNamesDead self.now result }
    {
        if self.lacks_room(owner, resource) {
            return match self.first_dead() {
                Some(dead) => Asked::Dead { owner: dead.owner },
                None => Asked::Room { used: self.used() },
            };
        }
        match self.holder(owner, resource, level) {
            None => Asked::Granted,
            Some(holder) if !holder.alive => Asked::Dead {
                owner: holder.owner,
            },
            Some(_) if wait => Asked::Queued,
            Some(holder) => Asked::Busy {
                holder: holder.owner,
                level: holder.granted,
            },
        }
    }

    /// Whether the owner may ask for the level on the resource: it lives and waits for nothing,
    /// the level is not none, and it has no request for the resource if that is a page.
    pub fn may_ask(&self, owner: u32, resource: Resource, level: Level) -> bool
        ensures { IsTrue result ↔ MayAsk self.now owner resource level }
    {
        !requests::is_dead_owner(&self.requests, owner)
            && requests::wait_of(&self.requests, owner).is_none()
            && level != Level::Free
            && (resource.series != Series::Page
                || requests::request_of(&self.requests, owner, resource).is_none())
    }

    /// The owner asks for the level on the resource, and waits where it is not granted and `wait`
    /// says so. The word stays with a new request. A refused ask changes nothing.
    pub fn ask(
        &mut self,
        owner: u32,
        resource: Resource,
        level: Level,
        wait: bool,
        word: u32,
    ) -> Asked
        requires { MayAsk self.old owner resource level }
        ensures answer { result ≡ answer_to_ask self.old owner resource level wait }
        ensures after { self.new ≡ after_ask self.old owner resource level word result }
        ensures dead { AskNamesDead self.new result }
    {
        let answer = self.answer(owner, resource, level, wait);
        match answer {
            Asked::Granted => {
                requests::enter(&mut self.requests, owner, resource, word);
                requests::set_granted(&mut self.requests, owner, resource, level);
            }
            Asked::Queued => {
                requests::enter(&mut self.requests, owner, resource, word);
                requests::set_waiting(&mut self.requests, owner, resource, level);
                self.waiters = requests::waiters_of(&self.requests);
            }
            _ => {}
        }
        answer
    }

    /// What the owner's ask that was queued has come to: granted where nobody is in the way of
    /// what it waits for, as also where it waits for nothing any more.
    pub fn look(&self, owner: u32) -> Looked
        ensures answer { result ≡ answer_to_look self.now owner }
        ensures dead { LookNamesDead self.now result }
    {
        let Some(wait) = requests::wait_of(&self.requests, owner) else {
            return Looked::Granted;
        };
        let Some(level) = wait.waiting else {
            return Looked::Granted;
        };
        match self.holder(owner, wait.resource, level) {
            None => Looked::Granted,
            Some(holder) if holder.alive => Looked::NotYet {
                holder: holder.owner,
            },
            Some(holder) => Looked::Dead {
                owner: holder.owner,
            },
        }
    }

    /// Lowers the owner's level on the resource. None takes the request away.
    pub fn lower(&mut self, owner: u32, resource: Resource, level: Level)
        requires { join (state.granted_of self.old owner resource) level ≡ state.granted_of self.old owner resource }
        ensures { self.new ≡ lowered self.old owner resource level }
    {
        if level == Level::Free {
            requests::remove(&mut self.requests, owner, resource);
            self.waiters = requests::waiters_left(&self.requests, self.waiters);
        } else {
            requests::set_granted(&mut self.requests, owner, resource, level);
        }
    }

    /// The owner waits no more, and its request goes where it has no level by it.
    pub fn withdraw(&mut self, owner: u32)
        ensures { self.new ≡ withdrawn self.old owner }
    {
        requests::remove_bare_wait(&mut self.requests, owner);
        requests::clear_waiting(&mut self.requests, owner);
        self.waiters = requests::waiters_left(&self.requests, self.waiters);
    }

    /// The k-th request in the order of asking, from 0. It is the one request of its owner for
    /// its resource.
    pub fn request(&self, k: u32) -> Request
        requires { k < length self.now.requests }
        ensures at { slice_get self.now.requests k ≡ Some result }
        ensures only { state.request_of self.now result.owner result.resource ≡ Some result }
    {
        self.requests[k as usize]
    }

    /// Whether the owner waits for the other, who lives, over a transaction or a relation.
    pub fn waits_for_number(&self, owner: u32, other: u32) -> bool
        ensures { result ≡ waits_for_number self.now owner other }
    {
        match requests::wait_of(&self.requests, owner) {
            Some(wait) => {
                !wait.resource.series.is_same(Series::Page)
                    && requests::is_wait_for(&self.requests, &wait, other)
            }
            None => false,
        }
    }

    /// The request of the least owner whose granted level keeps this owner from this level.
    pub fn holder(&self, owner: u32, resource: Resource, level: Level) -> Option<Request>
        ensures value { result ≡ state.holder_of self.now owner resource level }
        ensures dead { IfSome result (λ r. r.alive ≡ false → IsDead self.now r.owner) }
    {
        requests::holder_of(&self.requests, owner, resource, level)
    }

    /// Grants what the owner waits for on the resource.
    pub fn grant(&mut self, owner: u32, resource: Resource)
        requires { MayGrant self.old owner resource }
        ensures { self.new ≡ after_grant self.old owner resource }
    {
        requests::grant_wait(&mut self.requests, owner, resource);
        self.waiters = requests::waiters_left(&self.requests, self.waiters);
    }

    /// Takes the owner's request for the resource away.
    pub fn remove(&mut self, owner: u32, resource: Resource)
        ensures { self.new ≡ without self.old owner resource }
    {
        requests::remove(&mut self.requests, owner, resource);
        self.waiters = requests::waiters_left(&self.requests, self.waiters);
    }
}
