//! Ordered pairs of peers, and from when on their next messages may start.
ghost use Rattle.std.specs.Prelude.{◌≡◌, [], IfOk, IfErr, OnOk};
ghost use Rattle.link_waiting.specs.Idle.Index.{AreAtRest};
ghost use Rattle.link_waiting.specs.Idle.Waits.{since_of};
ghost use Rattle.link_waiting.specs.Idle.AtRest.{of_pairs};
ghost use Rattle.link_pairs.specs.Pairs.Messages.{messages};
ghost use Rattle.link_events.specs.Steps.Landing.{since_of_first};

use fairness::error::Error;
use fairness::peer::Peer;
use link_pairs::known_pairs::Pairs;
use link_pairs::message::Message;
use link_waiting::waiting::Waiting;
use std::collections::VecDeque;
use std::ops::Deref;
use std::sync::Arc;

/// The pairs of messages that are done are idle from now on: none of them is in flight. Answers the
/// moment from which on the next message of the first one's pair may start, if one waits.
pub(crate) fn tell_all<P: Peer>(
    waiting: &mut Waiting<P>,
    pairs: &Pairs<P>,
    done: &VecDeque<Arc<Message<P>>>,
) -> Result<Option<u64>, Error>
    ensures messages { OnOk result (waiting.new.messages ≡ waiting.old.messages) }
    ensures at_rest { OnOk result (AreAtRest P.cmp (of_pairs P.cmp pairs.now.entries waiting.old.messages [])
        (messages done.now.items) (since_of P.cmp waiting.old.told) (since_of P.cmp waiting.new.told)) }
    ensures first { IfOk result (λ since. since ≡ since_of_first P.cmp
        (of_pairs P.cmp pairs.now.entries waiting.old.messages []) (messages done.now.items)) }
    ensures before { waiting.new.before ≡ waiting.old.before }
    ensures refused { IfErr result (λ e. e ≡ Error.OutOfMemory) }
{
    let mut first = None;
    for at in 0..done.len() {
        let message = done[at].deref();
        let (origin, recipient) = (&message.origin, &message.recipient);
        let last = pairs.last_arrival(origin, recipient);
        let since = waiting.tell_since(origin, recipient, last)?;
        if at == 0 {
            first = since;
        }
    }
    Ok(first)
}
