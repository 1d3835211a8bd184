//! A list of handles that a section walks.
ghost use Rattle.std.specs.Prelude.{◌≡◌, ◌<◌, ◌||◌, ◌-◌, OnOk, OnErr, length, take, drop};
ghost use Rattle.uv_ids.specs.declared.id.Id as id;
ghost use Rattle.uv_model.specs.Ids.{has_some, walk_without_id};
ghost use Rattle.uv_records.specs.Walks.{nothing_listed, with_first, with_last, all_yet, moved_on};

use crate::ids::{has_some, remove_id};
use std::alloc::{AllocError, Global};
use std::marker::Model;
use std::mem;
use uv_ids::Id;

/// The handles of a list, and those of them that the section under way has yet to run. The orders are own.
#[derive(Drop)]
pub struct Walked {
    /// Front first, except those yet to run.
    list: Vec<Id>,
    /// Those that the section under way has yet to run, front first.
    yet: Vec<Id>,
}

impl Model for Walked {
    ghost use Rattle.uv_ids.specs.declared.id.Id.{Id};
    ghost use Rattle.uv_records.specs.Walks.{Walk};

    ghost Value = { Walk Id };

    ghost view = { λ a. record { list = a.list.items; yet = a.yet.items } };
}

impl Walked {
    /// No handle.
    pub fn new(alloc: Global) -> Walked
        ensures { result ≡ nothing_listed id.Id }
    {
        Walked {
            list: Vec::new(alloc),
            yet: Vec::new(alloc),
        }
    }

    /// Whether a handle is on the list, those yet to run aside.
    pub fn any_listed(&self) -> bool
        ensures { result ≡ has_some self.now.list }
    {
        has_some(&self.list)
    }

    /// Whether a handle is yet to run.
    pub fn any_yet(&self) -> bool
        ensures { result ≡ has_some self.now.yet }
    {
        has_some(&self.yet)
    }

    /// Whether there is a handle, yet to run or not.
    pub fn any(&self) -> bool
        ensures { result ≡ (has_some self.now.list || has_some self.now.yet) }
    {
        has_some(&self.list) || has_some(&self.yet)
    }

    /// Puts a handle at the front of the list. Without memory nothing changes.
    pub fn push_front(&mut self, id: Id) -> Result<(), AllocError>
        ensures ok { OnOk result (self.new ≡ with_first self.old id) }
        ensures err { OnErr result (self.new ≡ self.old) }
    {
        self.list.insert(0, id)?;
        Ok(())
    }

    /// Puts a handle at the end of the list. Without memory nothing changes.
    pub fn push_back(&mut self, id: Id) -> Result<(), AllocError>
        ensures ok { OnOk result (self.new ≡ with_last self.old id) }
        ensures err { OnErr result (self.new ≡ self.old) }
    {
        self.list.push(id)?;
        Ok(())
    }

    /// Takes the last handle off the list.
    pub fn pop_back(&mut self)
        ensures { self.new ≡ record self.old { list = take (length self.old.list - 1) self.old.list } }
    {
        self.list.pop();
    }

    /// Takes a handle off the list, and off those yet to run.
    pub fn remove(&mut self, id: Id)
        ensures { self.new ≡ walk_without_id self.old id }
    {
        remove_id(&mut self.list, id);
        remove_id(&mut self.yet, id);
    }

    /// Begins a section: the whole list is yet to run.
    pub fn begin_walk(&mut self)
        ensures { self.new ≡ all_yet self.old }
    {
        mem::swap(&mut self.list, &mut self.yet);
        self.list.clear();
    }

    /// Those on the list, front first, those yet to run aside.
    pub fn list(&self) -> &[Id]
        ensures { result.now ≡ self.now.list }
    {
        &self.list
    }

    /// Those yet to run, front first.
    pub fn yet(&self) -> &[Id]
        ensures { result.now ≡ self.now.yet }
    {
        &self.yet
    }

    /// Moves the front of those yet to run to the end of the list. Without memory nothing changes.
    pub fn move_on(&mut self, front: Id) -> Result<(), AllocError>
        requires { 0 < length self.old.yet }
        ensures ok { OnOk result (self.new ≡ moved_on self.old front (drop 1 self.old.yet)) }
        ensures err { OnErr result (self.new ≡ self.old) }
    {
        self.list.push(front)?;
        self.yet.remove(0);
        Ok(())
    }

    /// Takes the front off those yet to run.
    pub fn take_front(&mut self)
        requires { 0 < length self.old.yet }
        ensures { self.new ≡ record self.old { yet = drop 1 self.old.yet } }
    {
        self.yet.remove(0);
    }
}
