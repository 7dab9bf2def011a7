//! Starting drivers on one handle.
ghost use Rattle.std.specs.Prelude.{◌≡◌, ◌++◌, true, false, IfOk, OnOk};
ghost use Rattle.driver_connect.specs.GoingOn.{GoesOn};
ghost use Rattle.driver_connect.specs.Room.{HasRoom, Grows};
ghost use Rattle.driver_connect.specs.Sites.{EndsAs, TakesTurn, begun, passed, site_at};
ghost use Rattle.driver_connect.specs.Starting as spec;
ghost use Rattle.driver_connect.specs.Starting.{all_passes, pass, protocols_at};

use crate::agents::{Agent, plan_at, supports_at};
use crate::candidates::agents_for;
use crate::driver::Driver;
use crate::progress::{can_start, make_children, open_for_driver, signal_children};
use crate::protocols::Lists;
use crate::view::{ProtocolView, StartPlan, View};
use guid_handles::{Handles, Pair};
use open_agents::Opens;
use protocol_notify::Notify;
use std::alloc::{AllocError, Allocator};
use std::marker::Model;
use std::mem;

/// A start of a driver.
#[derive(Clone, Copy)]
pub struct Start {
    /// The driver's handle.
    pub agent: u64,
    pub is_carried_out: bool,
}

/// How far a connect has come: the handles, the open items, and the events signaled.
#[derive(Drop)]
pub(crate) struct Connecting<A: Allocator> {
    pub(crate) handles: Handles<A>,
    pub(crate) opens: Opens<A>,
    pub(crate) events: Vec<u64, A>,
}

impl<A: Allocator> Model for Connecting<A> {
    ghost use Rattle.driver_connect.specs.Starting.{Progress};

    ghost Value = { Progress };

    ghost view = { λ c. record { handles = c.handles; opens = c.opens; events = c.events.items } };
}

/// What a pass over drivers has done: the starts made, and the drivers that are left.
#[derive(Drop)]
pub(crate) struct Pass<A: Allocator> {
    starts: Vec<Start, A>,
    left: Vec<Agent, A>,
}

impl<A: Allocator + Copy> Connecting<A> {
    /// Moves the handles and the open items here, to be changed, with the events given. Until they are
    /// put in place there are none. This does not allocate.
    pub(crate) fn take(
        alloc: A,
        handles: &mut Handles<A>,
        opens: &mut Opens<A>,
        events: Vec<u64, A>,
    ) -> Connecting<A>
        ensures { result ≡ begun handles.old opens.old events }
    {
        Connecting {
            handles: mem::replace(handles, Handles::new(alloc)),
            opens: mem::replace(opens, Opens::new(alloc)),
            events,
        }
    }

    /// Puts the changed handles and open items into the place of the others, and returns the events.
    pub(crate) fn put_in_place(self, handles: &mut Handles<A>, opens: &mut Opens<A>) -> Vec<u64, A>
        ensures handles { handles.new ≡ self.handles }
        ensures opens { opens.new ≡ self.opens }
        ensures events { result.items ≡ self.events }
    {
        let Connecting {
            handles: new_handles,
            opens: new_opens,
            events,
        } = self;
        *handles = new_handles;
        *opens = new_opens;
        events
    }

    /// The protocols on a handle.
    fn protocols_on(&self, alloc: A, handle: u64) -> Result<Vec<ProtocolView, A>, AllocError>
        ensures { IfOk result (λ v. v.items ≡ protocols_at self.now handle) }
    {
        let lists = Lists {
            alloc,
            handles: &self.handles,
            opens: &self.opens,
        };
        lists.protocols_on(handle)
    }

    /// The protocols on a controller after a turn, where those before it are given.
    fn refreshed(
        &self,
        alloc: A,
        controller: u64,
        protocols: Vec<ProtocolView, A>,
        turn: Option<bool>,
    ) -> Result<Vec<ProtocolView, A>, AllocError>
        requires { spec.is_change turn ≡ false
            → protocols.items ≡ protocols_at self.now controller }
        ensures { IfOk result (λ v. v.items ≡ protocols_at self.now controller) }
    {
        match turn {
            Some(true) => self.protocols_on(alloc, controller),
            _ => Ok(protocols),
        }
    }

    /// Carries out a plan that can be.
    fn carry_out(
        &mut self,
        notify: &Notify<A>,
        controller: u64,
        agent: u64,
        plan: &StartPlan,
    ) -> Result<(), AllocError>
        requires room { HasRoom self.old.handles }
        requires can { spec.can_start self.old.handles (protocols_at self.old controller) plan.now
            ≡ true }
        ensures progress { OnOk result
            (self.new ≡ spec.carried_out notify.now controller agent plan.now self.old) }
        ensures grows { OnOk result (Grows self.old.handles self.new.handles) }
        ensures goes_on { GoesOn self.old self.new }
    {
        open_for_driver(&mut self.opens, controller, agent, plan.opens.as_slice())?;
        make_children(
            &mut self.handles,
            Pair { controller, agent },
            plan.children.as_slice(),
        )?;
        signal_children(&mut self.events, notify, plan.children.as_slice())
    }
}

impl<A: Allocator + Copy> Pass<A> {
    /// Notes what came of an agent's turn.
    fn note(&mut self, agent: &Agent, turn: Option<bool>) -> Result<(), AllocError>
        ensures starts { OnOk result
            (self.new.starts.items ≡ self.old.starts.items ++ spec.starts_of agent.now turn) }
        ensures left { OnOk result
            (self.new.left.items ≡ self.old.left.items ++ spec.left_of agent.now turn) }
    {
        match turn {
            Some(is_carried_out) => self.starts.push(Start {
                agent: agent.handle,
                is_carried_out,
            })?,
            None => self.left.push(*agent)?,
        }
        Ok(())
    }
}

/// What drivers are started by: those that there are, the registrations for the events that this
/// signals, and where memory is allocated.
#[derive(Drop)]
pub struct Starter<'a, D, A: Allocator> {
    pub alloc: A,
    pub drivers: &'a [D],
    pub notify: &'a Notify<A>,
}

impl<'a, D: Driver, A: Allocator + Copy> Starter<'a, D, A> {
    /// Starts an agent's driver if it is supported on the controller, whose protocols are given, and
    /// returns whether the start was carried out. It returns none where the driver is not supported.
    fn take_turn(
        &self,
        connecting: &mut Connecting<A>,
        controller: u64,
        agent: &Agent,
        protocols: &[ProtocolView],
    ) -> Result<Option<bool>, AllocError>
        requires room { HasRoom connecting.old.handles }
        requires protocols { protocols.now ≡ protocols_at connecting.old controller }
        ensures turn { IfOk result (λ t. TakesTurn (site_at D.meaning self.now controller)
            connecting.old agent.now t connecting.new) }
        ensures stays { IfOk result
            (λ t. spec.is_change t ≡ false → connecting.new ≡ connecting.old) }
        ensures grows { OnOk result (Grows connecting.old.handles connecting.new.handles) }
        ensures goes_on { GoesOn connecting.old connecting.new }
    {
        let view = View {
            agent: agent.handle,
            controller,
            protocols,
        };
        if !supports_at(self.drivers, agent.driver, &view) {
            return Ok(None);
        }
        let plan = plan_at(self.drivers, agent.driver, &view);
        if !can_start(&connecting.handles, protocols, &plan) {
            return Ok(Some(false));
        }
        connecting.carry_out(self.notify, controller, agent.handle, &plan)?;
        Ok(Some(true))
    }

    /// Starts each of some drivers in turn that is supported on a controller.
    fn run_pass(
        &self,
        connecting: &mut Connecting<A>,
        controller: u64,
        agents: &[Agent],
    ) -> Result<Pass<A>, AllocError>
        requires { HasRoom connecting.old.handles }
        ensures whole { IfOk result (λ p. passed p.starts.items p.left.items connecting.new
            ≡ pass (site_at D.meaning self.now controller) agents.now connecting.old) }
        ensures grows { OnOk result (Grows connecting.old.handles connecting.new.handles) }
        ensures goes_on { GoesOn connecting.old connecting.new }
    {
        let mut pass = Pass {
            starts: Vec::new(self.alloc),
            left: Vec::new(self.alloc),
        };
        let mut protocols = connecting.protocols_on(self.alloc, controller)?;
        for agent in agents {
            let turn = self.take_turn(connecting, controller, agent, protocols.as_slice())?;
            pass.note(agent, turn)?;
            protocols = connecting.refreshed(self.alloc, controller, protocols, turn)?;
        }
        Ok(pass)
    }

    /// Starts drivers on a controller, in passes over those that are left, up to a pass that starts
    /// none. Drivers that are named come first. LLVM keeps this a call of its own, since plans take
    /// much of the stack in each level of handles; Rattle's own compiler does not read the attribute.
    #[inline(never)]
    pub(crate) fn run_passes(
        &self,
        connecting: &mut Connecting<A>,
        controller: u64,
        named: &[u64],
    ) -> Result<Vec<Start, A>, AllocError>
        requires { HasRoom connecting.old.handles }
        ensures ends { IfOk result (λ v. EndsAs
            (spec.starts_on (site_at D.meaning self.now controller) named.now connecting.old)
            v.items connecting.new) }
        ensures grows { OnOk result (Grows connecting.old.handles connecting.new.handles) }
        ensures goes_on { GoesOn connecting.old connecting.new }
    {
        let agents = agents_for(self.alloc, self.drivers, &connecting.handles, named)?;
        self.run_passes_over(connecting, controller, agents)
    }

    /// Starts drivers on a controller, in passes over those that are left, up to a pass that starts
    /// none.
    fn run_passes_over(
        &self,
        connecting: &mut Connecting<A>,
        controller: u64,
        agents: Vec<Agent, A>,
    ) -> Result<Vec<Start, A>, AllocError>
        requires { HasRoom connecting.old.handles }
        ensures ends { IfOk result (λ v. EndsAs
            (all_passes (site_at D.meaning self.now controller) agents.items connecting.old)
            v.items connecting.new) }
        ensures grows { OnOk result (Grows connecting.old.handles connecting.new.handles) }
        ensures goes_on { GoesOn connecting.old connecting.new }
    {
        let count = agents.len();
        let mut left = agents;
        let mut starts = Vec::new(self.alloc);
        for k in 0..count {
            let pass = self.run_pass(connecting, controller, left.as_slice())?;
            starts.extend_from_slice(pass.starts.as_slice())?;
            if pass.starts.is_empty() {
                return Ok(starts);
            }
            let Pass {
                starts: _,
                left: rest,
            } = pass;
            left = rest;
        }
        Ok(starts)
    }
}

/// Whether a start was carried out.
pub(crate) fn is_any_carried_out(starts: &[Start]) -> bool
    ensures { result ≡ spec.is_any_carried_out starts.now }
{
    starts.iter().any(|s| s.is_carried_out)
}
