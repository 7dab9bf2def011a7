//! The lists as they were, to be put back.
ghost use Rattle.std.specs.Prelude.{◌≡◌, IfOk};
ghost use Rattle.protocol_services.specs.Removing.{freed};
ghost use Rattle.protocol_services.specs.RemovalSteps.{stop_to_free};
ghost use Rattle.protocol_services.specs.Saved.{put_back, saved_of};

use crate::protocols::Protocols;
use driver_connect::StopPlan;
use guid_handles::Handles;
use open_agents::Opens;
use std::alloc::{AllocError, Allocator, Global};
use std::marker::Model;
use uuid::Uuid;

/// The handles with their interfaces and the open items as they were, if a call changes them.
#[derive(Drop)]
pub(crate) struct Saved<A: Allocator = Global> {
    handles: Option<Handles<A>>,
    opens: Option<Opens<A>>,
}

impl<A: Allocator> Model for Saved<A> {
    ghost use Rattle.protocol_services.specs.Saved.{SavedLists};

    ghost Value = { SavedLists };

    ghost view = { λ s. record { handles = s.handles; opens = s.opens } };
}

impl<A: Allocator + Copy> Protocols<A> {
    /// Copies the handles and the open items.
    pub(crate) fn saved(&self) -> Result<Saved<A>, AllocError>
        ensures { IfOk result (λ saved. saved ≡ saved_of self.now) }
    {
        let handles = self.handles.try_copy()?;
        let opens = self.opens.try_copy()?;
        Ok(Saved {
            handles: Some(handles),
            opens: Some(opens),
        })
    }

    /// Copies what a stop that frees an interface changes: no list if nothing has the interface open, and no
    /// handles if none goes.
    pub(crate) fn saved_before(
        &self,
        plan: &StopPlan<A>,
        handle: u64,
        guid: Uuid,
    ) -> Result<Saved<A>, AllocError>
        requires { plan.now ≡ stop_to_free self.now handle guid }
        ensures { IfOk result
            (λ saved. put_back saved (freed handle guid self.now) ≡ self.now) }
    {
        if !self.opens.usage(handle, guid).is_open {
            return Ok(Saved {
                handles: None,
                opens: None,
            });
        }
        if !plan.handles().is_empty() {
            return self.saved();
        }
        let opens = self.opens.try_copy()?;
        Ok(Saved {
            handles: None,
            opens: Some(opens),
        })
    }

    /// Puts the lists back that were copied. The registrations stay.
    pub(crate) fn put_back(&mut self, saved: Saved<A>)
        ensures { self.new ≡ put_back saved self.old }
    {
        let Saved { handles, opens } = saved;
        if let Some(handles) = handles {
            self.handles = handles;
        }
        if let Some(opens) = opens {
            self.opens = opens;
        }
    }
}
