//! The laws of the session of a node's user. The functions do nothing at run time.
ghost use Rattle.std.specs.Prelude.{ℕ, List};
ghost use Rattle.at_event.specs.Outcomes.{Outcome};
ghost use Rattle.at_event.specs.declared.Call.{Call};
ghost use Rattle.at_event.specs.declared.Timer.{Timer};
ghost use Rattle.at_event.specs.declared.service.Reply.{Reply};
ghost use Rattle.at_node.specs.Hearing.{Hears};
ghost use Rattle.at_node.specs.Nodes.{NodeState, called, timed};
ghost use Rattle.at_steps.specs.Acts.{Calls, Fires, Gets};
ghost use Rattle.at_steps.specs.SessionSteps.{IsStep};

use std::alloc::Allocator;

/// Each event of a node is a step of its user's session, which keeps what the node reports, and picks a zone of
/// the list that was read last.
pub fn an_event_is_a_step_of_the_session<A: Allocator>()
    ensures call { (n : NodeState) (call : Call A)
        → IsStep n.session (Calls call) (called n call).report (called n call).state.session }
    ensures timer { (n : NodeState) (time : Timer)
        → IsStep {A = A} n.session (Fires time) (timed {A = A} n time).report (timed {A = A} n time).state.session }
    ensures datagram { (n : NodeState) (datagram : ℕ) (bytes : List ℕ) (said : Reply A) (o : Outcome A NodeState)
        → Hears said n bytes o → IsStep n.session (Gets datagram) o.report o.state.session }
{}
