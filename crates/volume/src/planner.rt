ghost use Rattle.std.specs.Arc.{arc_value};
ghost use Rattle.std.specs.Prelude.{◌≡◌, true, IfOk, OnErr};
ghost use Rattle.btree_map.specs.Trees.{keys_in};
ghost use Rattle.dirty_nodes.specs.Ids.{id_trees};
ghost use Rattle.core_actors.specs.Actors.{with_ids, with_look};
ghost use Rattle.core_state.specs.States.{mine};
ghost use Rattle.fs_plan.specs.Plans.{IsBounded, IsOfItsClass, is_planned};
ghost use Rattle.vol_session.specs.Sessions.{IsPlanNow};
ghost use Rattle.volume.specs.Planning.{IsPlanning, standing_in};
ghost use Rattle.volume.specs.Serving.{IsMoved, IsUnderWay};

use core::mem::replace_with;
use dev_model::Devices;
use forest_ops::Op;
use fs_plan::{Plan, plan};
use key_view::{Hold, View};
use snap_tree::SnapTree;
use std::alloc::{AllocError, Global};
use std::marker::{Brand, Model, PhantomData};
use std::sync::Arc;
use vol_core::{Answer, Event, Opening};
use vol_session::Session;
use vol_types::{Keys, Looks, Query};

/// The plan of an operation that a client has under way, by looks at the keys in memory. It holds as long as these keys stay.
///
/// It costs the looks of the plan. An `Err` says that it is out of memory; the operation stays under way then.
pub(crate) fn planned<D: Devices, O: Opening>(
    alloc: Global,
    session: &mut Session<D, O>,
    client: u8,
    op: Op,
) -> Result<Plan, AllocError>
    requires under { IsUnderWay session.old.core.memory client }
    requires planned { is_planned op ≡ true }
    requires bounded { IsBounded op }
    ensures moved { IsMoved D.state session.old session.new }
    ensures shortages { session.new.shortages ≡ session.old.shortages }
    ensures under { IsUnderWay session.new.core.memory client }
    ensures op { IfOk result (λ plan. plan.op ≡ op) }
    ensures now { IfOk result (IsPlanNow session.new.core.memory client) }
    ensures class { IfOk result IsOfItsClass }
{
    replace_with(session, Asked { alloc, client, op }, plan_in)
}

// An operation of a client that is to be planned, and memory for that.
#[derive(Drop)]
struct Asked {
    alloc: Global,
    client: u8,
    op: Op,
}

// The session, with the plan of an operation by its keys.
fn plan_in<D: Devices, O: Opening>(
    session: Session<D, O>,
    asked: Asked,
) -> (Session<D, O>, Result<Plan, AllocError>)
    requires under { IsUnderWay session.core.memory asked.client }
    requires planned { is_planned asked.op ≡ true }
    requires bounded { IsBounded asked.op }
    ensures moved { IsMoved D.state session result.0 }
    ensures shortages { result.0.shortages ≡ session.shortages }
    ensures under { IsUnderWay result.0.core.memory asked.client }
    ensures op { IfOk result.1 (λ plan. plan.op ≡ asked.op) }
    ensures now { IfOk result.1 (IsPlanNow result.0.core.memory asked.client) }
    ensures class { IfOk result.1 IsOfItsClass }
{
    plan_from::<D, O, Brand>(session, asked)
}

/// What stood in a session when the planning of an operation began, and whose operation it is. It has no calls.
trait Begun {
    ghost use Rattle.std.specs.Prelude.{ℕ};
    ghost use Rattle.volume.specs.Planning.{Standing};

    ghost begun: { Standing };

    ghost client: { ℕ };
}

impl Begun for Brand {
    ghost use Rattle.volume.specs.Planning.{nothing_standing};

    ghost begun = { nothing_standing };

    ghost client = { 0 };
}

// The session, in which all stands as before, with the plan of an operation by its keys.
fn plan_from<D: Devices, O: Opening, B: Begun>(
    session: Session<D, O>,
    asked: Asked,
) -> (Session<D, O>, Result<Plan, AllocError>)
    requires begun { IsPlanning B.client D.state B.begun session }
    requires client { asked.client ≡ B.client }
    requires planned { is_planned asked.op ≡ true }
    requires bounded { IsBounded asked.op }
    ensures begun { IsPlanning B.client D.state B.begun result.0 }
    ensures op { IfOk result.1 (λ plan. plan.op ≡ asked.op) }
    ensures now { IfOk result.1 (IsPlanNow result.0.core.memory B.client) }
    ensures class { IfOk result.1 IsOfItsClass }
{
    let mut planner = Planner::<D, O, B> {
        session,
        client: asked.client,
        begun: PhantomData,
    };
    let planned = plan(asked.alloc, &mut planner, asked.client, asked.op);
    let Planner {
        session,
        client: _,
        begun: _,
    } = planner;
    session.memory().see_kept();
    match planned {
        Ok(plan) => (session, Ok(plan)),
        Err(_) => {
            drop(planned);
            (session, Err(AllocError))
        }
    }
}

/// The keys in memory as a client sees them, look by look. All else of the session stands.
struct Planner<D: Devices, O: Opening, B: Begun> {
    session: Session<D, O>,
    client: u8,
    begun: PhantomData<B>,
}

impl<D: Devices, O: Opening, B: Begun> Model for Planner<D, O, B> {
    ghost use Rattle.vol_session.specs.Sessions.{SessionState};
    ghost use Rattle.volume.specs.Planning.{IsAsking};

    ghost Value = { SessionState D };

    ghost view = { λ p. p.session };

    ghost invariant = { λ p. IsAsking p.client B.client D.state B.begun p.session };
}

impl<D: Devices, O: Opening, B: Begun> View for Planner<D, O, B> {
    ghost use Rattle.std.specs.Prelude.{◌≡◌};
    ghost use Rattle.core_state.specs.States.{mine};
    ghost use Rattle.key_view.specs.declared.hold.Hold.TheVariants.{NoMemory};
    ghost use Rattle.volume.specs.Planning.{ids_told};

    ghost made = { λ session. (mine session.core.memory B.client).looks };

    ghost told = { λ session. ids_told session.core.memory B.client };

    ghost held = { λ _ hold. hold ≡ NoMemory };

    fn look(&mut self, query: &Query) -> Result<Keys, Hold> {
        Ok(look(&mut self.session, self.client, *query)?)
    }

    fn looks(&self) -> &Looks {
        &self.session.memory().actor(self.client).looks
    }

    fn tree(&mut self) -> Result<Arc<SnapTree>, Hold> {
        Ok(look_ids(&mut self.session, self.client)?)
    }
}

// The keys that a client asks for.
fn look<D: Devices, O: Opening>(
    session: &mut Session<D, O>,
    client: u8,
    query: Query,
) -> Result<Keys, AllocError>
    requires { IsUnderWay session.old.core.memory client }
    ensures stands { standing_in D.state session.new ≡ standing_in D.state session.old }
    ensures under { IsUnderWay session.new.core.memory client }
    ensures ok { IfOk result (λ keys. mine session.new.core.memory client
        ≡ with_look query keys (mine session.old.core.memory client)) }
    ensures err { OnErr result (session.new.core.memory ≡ session.old.core.memory) }
{
    session.memory().see_kept();
    let answer = session.step(client, Event::Look(query));
    match answer {
        Answer::Found(keys) => Ok(keys),
        Answer::NoMemory => {
            drop(answer);
            Err(AllocError)
        }
        _ => unreachable!(),
    }
}

// The trees of all snapshot ids, of which a client is told.
fn look_ids<D: Devices, O: Opening>(
    session: &mut Session<D, O>,
    client: u8,
) -> Result<Arc<SnapTree>, AllocError>
    requires { IsUnderWay session.old.core.memory client }
    ensures stands { standing_in D.state session.new ≡ standing_in D.state session.old }
    ensures under { IsUnderWay session.new.core.memory client }
    ensures tree { IfOk result (λ tree. arc_value tree
        ≡ id_trees (keys_in session.old.core.memory.volume.trees)) }
    ensures ok { IfOk result (λ tree. mine session.new.core.memory client
        ≡ with_ids (mine session.old.core.memory client)) }
    ensures err { OnErr result (session.new.core.memory ≡ session.old.core.memory) }
{
    session.memory().see_kept();
    let answer = session.step(client, Event::LookIds);
    match answer {
        Answer::Ids(tree) => Ok(tree),
        Answer::NoMemory => {
            drop(answer);
            Err(AllocError)
        }
        _ => unreachable!(),
    }
}
