//! The held dialogs by name, and how many each INVITE made.

ghost use Rattle.std.specs.Prelude.{◌≡◌, ◌+◌, ◌-◌, ◌==◌, [], Some, IfOk, OnOk, length, if◌then◌else◌};
ghost use Rattle.std.specs.Map.{remove_entry};
ghost use Rattle.std.specs.Option.{is_some, option_copied, option_map_or};
ghost use Rattle.indexmap.specs.IndexMap.{insert_entry};
ghost use Rattle.sip_message.specs.declared.id.Id.{Id};
ghost use Rattle.sip_held_dialogs.specs.Counted as counts;
ghost use Rattle.sip_held_dialogs.specs.Dialogs as spec;
ghost use Rattle.sip_held_dialogs.specs.Ids.{is_id};

use crate::held_dialog::{DialogId, HeldDialog};
use indexmap::IndexMap;
use ordered_map::OrderedMap;
use seeded_hash::HashSeed;
use sip_message::Id;
use sip_same::SameValue;
use std::alloc::{AllocError, Global};
use std::marker::Model;

/// Up to how many dialogs are looked through for those of an INVITE.
const FEW: usize = 8;

/// The held dialogs as a list, for what looks at all of them.
pub type DialogList = IndexMap<DialogId, HeldDialog, HashSeed>;

/// How many dialogs an INVITE made, and the name of one that it made.
#[derive(Drop)]
pub(crate) struct Made {
    pub(crate) count: u64,
    pub(crate) name: DialogId,
}

/// The INVITEs that made dialogs.
type Invites = IndexMap<Id, Made, HashSeed>;

/// The held dialogs by name, in the order in which they were made. Contracts see their entries. A
/// peer chooses tags, so the hash of a name has a secret seed.
pub struct Dialogs {
    alloc: Global,
    /// The dialogs. What is written to one must leave its INVITE.
    pub all: OrderedMap<DialogId, HeldDialog, HashSeed>,
    // Once there are many dialogs.
    invites: Option<Invites>,
}

/// The dialogs that an INVITE made.
#[derive(Drop)]
pub(crate) enum MadeBy {
    Nothing,
    /// The only one.
    One(DialogId),
    /// Perhaps several: all dialogs have to be looked at.
    Several,
}

impl Model for Dialogs {
    ghost use Rattle.ordered_map.specs.OrderedMap.{Ordered};
    ghost use Rattle.sip_held_dialogs.specs.declared.held_dialog.DialogId.{DialogId};
    ghost use Rattle.sip_held_dialogs.specs.declared.held_dialog.HeldDialog.{HeldDialog};

    ghost Value = { Ordered DialogId HeldDialog };

    ghost use Rattle.sip_held_dialogs.specs.Counted.{AreCounted};

    ghost view = { λ dialogs. dialogs.all };

    ghost invariant = { λ dialogs. AreCounted dialogs.invites dialogs.all.entries };
}

impl Dialogs {
    /// No dialog. Takes no memory.
    pub fn new(alloc: Global, hash_seed: HashSeed) -> Dialogs
        ensures { result.entries ≡ [] }
    {
        Dialogs {
            alloc,
            all: OrderedMap::with_hasher(alloc, hash_seed),
            invites: None,
        }
    }

    /// The seed of the hashes.
    pub fn hash_seed(&self) -> HashSeed {
        self.all.hasher()
    }

    /// Whether no dialog is held. Takes no memory.
    pub fn is_empty(&self) -> bool
        ensures { result ≡ (length self.now.entries == 0) }
    {
        self.all.is_empty()
    }

    /// Whether a dialog of this name is held.
    pub fn contains(&self, name: &DialogId) -> bool
        ensures { result ≡ is_some (spec.dialog_at name.now self.now.entries) }
    {
        self.all.contains_key(name)
    }

    /// The dialog of this name.
    pub fn get(&self, name: &DialogId) -> Option<&HeldDialog>
        ensures { option_copied result ≡ spec.dialog_at name.now self.now.entries }
    {
        self.all.get(name)
    }

    /// Takes all dialogs out. Takes no memory.
    pub fn take(&mut self) -> Dialogs
        ensures value { result.entries ≡ self.old.entries }
        ensures nothing { self.new.entries ≡ [] }
    {
        Dialogs {
            alloc: self.alloc,
            all: self.all.take(),
            invites: self.invites.take(),
        }
    }

    /// The dialogs as a list.
    pub fn into_list(self) -> Result<DialogList, AllocError>
        ensures { IfOk result (λ list. list.entries ≡ self.entries) }
    {
        let Dialogs {
            alloc: _,
            all,
            invites: _,
        } = self;
        all.into_list()
    }

    /// The dialogs of a list.
    pub fn of_list(alloc: Global, list: DialogList) -> Result<Dialogs, AllocError>
        ensures { IfOk result (λ dialogs. dialogs.entries ≡ list.entries) }
    {
        if list.len() <= FEW {
            return Ok(Dialogs {
                alloc,
                all: OrderedMap::of_list(alloc, list)?,
                invites: None,
            });
        }
        let invites = invites_of(alloc, &list)?;
        let all = OrderedMap::of_list(alloc, list)?;
        Ok(Dialogs {
            alloc,
            all,
            invites: Some(invites),
        })
    }

    /// Holds a dialog under this name. One of this name is replaced in its place; a new one is the
    /// last.
    pub fn insert(&mut self, name: DialogId, made: HeldDialog) -> Result<(), AllocError>
        ensures { OnOk result (self.new.entries
            ≡ insert_entry spec.is_dialog_id self.old.entries name made) }
    {
        *self = self.take().with(name, made)?;
        Ok(())
    }

    // These dialogs, and this one under this name.
    fn with(self, name: DialogId, made: HeldDialog) -> Result<Dialogs, AllocError>
        ensures { IfOk result (λ dialogs. dialogs.entries
            ≡ insert_entry spec.is_dialog_id self.entries name made) }
    {
        let Dialogs {
            alloc,
            mut all,
            invites,
        } = self;
        let Some(mut invites) = invites else {
            all.insert(name, made)?;
            return if all.len() <= FEW {
                Ok(Dialogs {
                    alloc,
                    all,
                    invites: None,
                })
            } else {
                Dialogs::of_list(alloc, all.into_list()?)
            };
        };
        count_out_former(&mut invites, all.get(&name));
        count_in(&mut invites, made.invite, name.clone()?)?;
        all.insert(name, made)?;
        Ok(Dialogs {
            alloc,
            all,
            invites: Some(invites),
        })
    }

    /// Takes out the dialog of this name. Takes no memory.
    pub fn remove(&mut self, name: &DialogId) -> Option<HeldDialog>
        ensures value { result ≡ spec.dialog_at name.now self.old.entries }
        ensures left { self.new.entries
            ≡ remove_entry (spec.is_dialog_id name.now) self.old.entries }
    {
        let (left, held) = self.take().without(name);
        *self = left;
        held
    }

    // These dialogs without the one of this name, which is given too.
    fn without(self, name: &DialogId) -> (Dialogs, Option<HeldDialog>)
        ensures left { result.0.entries ≡ remove_entry (spec.is_dialog_id name.now) self.entries }
        ensures held { result.1 ≡ spec.dialog_at name.now self.entries }
    {
        let Dialogs {
            alloc,
            mut all,
            invites,
        } = self;
        let held = all.remove(name);
        let Some(mut invites) = invites else {
            return (
                Dialogs {
                    alloc,
                    all,
                    invites: None,
                },
                held,
            );
        };
        count_out_former(&mut invites, held.as_ref());
        (
            Dialogs {
                alloc,
                all,
                invites: Some(invites),
            },
            held,
        )
    }

    /// The dialogs that an INVITE made, as far as that is known without a look at all.
    pub(crate) fn made_by(&self, invite: Id) -> Result<MadeBy, AllocError>
        ensures { IfOk result (counts.IsMadeBy invite self.now.entries) }
    {
        let Some(invites) = &self.invites else {
            return Ok(MadeBy::Several);
        };
        let Some(made) = invites.get(&invite) else {
            return Ok(MadeBy::Nothing);
        };
        match self.all.get(&made.name) {
            Some(held) if made.count == 1 && held.invite == invite => {
                Ok(MadeBy::One(made.name.clone()?))
            }
            _ => Ok(MadeBy::Several),
        }
    }
}

// The INVITEs that made these dialogs.
fn invites_of(alloc: Global, list: &DialogList) -> Result<Invites, AllocError>
    ensures { IfOk result (λ invites. counts.Count invites.entries list.now.entries) }
{
    let mut invites = IndexMap::with_hasher(alloc, *list.hasher());
    for (name, held) in list.iter() {
        count_in(&mut invites, held.invite, name.clone()?)?;
    }
    Ok(invites)
}

// An INVITE made one dialog more.
fn count_in(invites: &mut Invites, invite: Id, name: DialogId) -> Result<(), AllocError>
    ensures { OnOk result ((id : Id) → counts.count_at id invites.new.entries
        ≡ counts.count_at id invites.old.entries + (if is_id invite id then 1 else 0)) }
{
    if let Some(made) = invites.get_mut(&invite) {
        made.count = made.count.checked_add(1).ok_or(AllocError)?;
        made.name = name;
        return Ok(());
    }
    invites.insert(invite, Made { count: 1, name })?;
    Ok(())
}

// A dialog is gone, if there was one.
fn count_out_former(invites: &mut Invites, former: Option<&HeldDialog>)
    ensures { (id : Id) → counts.count_at id invites.new.entries
        ≡ counts.count_at id invites.old.entries
        - option_map_or (counts.one_by id) (option_copied former.entry) 0 }
{
    if let Some(held) = former {
        count_out(invites, held.invite);
    }
}

// A dialog that an INVITE made is gone.
fn count_out(invites: &mut Invites, invite: Id)
    ensures { (id : Id) → counts.count_at id invites.new.entries
        ≡ counts.count_at id invites.old.entries - (if is_id invite id then 1 else 0) }
{
    let Some(made) = invites.get_mut(&invite) else {
        return;
    };
    if made.count > 1 {
        made.count -= 1;
        return;
    }
    invites.swap_remove(&invite);
}

impl SameValue for Dialogs {
    // However they are counted.
    fn is_same(&self, other: &Dialogs) -> bool {
        self.all.is_same(&other.all)
    }
}

impl Drop for Dialogs {
    fn drop(self) {
        let Dialogs {
            alloc: _,
            all: _,
            invites: _,
        } = self;
    }
}
