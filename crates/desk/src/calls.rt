// The calls of a line on a dispatcher, and the reply to them.
ghost use Rattle.std.specs.Prelude.{◌≡◌, None, Some, List, ℕ};
ghost use Rattle.lines.specs.declared.commands.Command.TheVariants as command;
ghost use Rattle.dispatch.specs.Lists.{cost_rules, list_rules};
ghost use Rattle.desk.specs.Calls.{Carries, reply_to};
ghost use Rattle.desk.specs.Replies.{IsPlain, Obeyed};

use crate::refused;
use costs::cost::Cost;
use costs::sum::Sum;
use dispatch::answers::Answer;
use dispatch::calls::{Entry, Watch};
use dispatch::dispatcher::Dispatcher;
use dispatch::slip::Slip;
use lines::replies::Reply;
use lists::dive::Dive;
use lists::node::Node;
use lists::node_heap::NodeHeap;
use lists::waiting::WaitingList;
use refusals::Refusal;

/// For how many nodes the heap of a draft has room. The dive over it keeps a few more.
pub const HEAP_ROOM: usize = 256;

// An entry of a line.
type LineEntry<'a> = Entry<Sum, Dive<NodeHeap<'a>>>;

// Makes the reply to the calls of a line.
#[derive(Drop)]
struct Replying {
    reply: Option<Reply>,
}

impl Watch for Replying {
    ghost saw = { λ old answer _ new. new.reply ≡ reply_to answer old.reply };

    fn see(&mut self, _dispatcher: &Dispatcher, answer: &Result<Answer, Refusal>) {
        self.reply = match *answer {
            Ok(Answer::Held) => Some(Reply::Held),
            Ok(Answer::Moved(moved)) => Some(Reply::Ticked { moved }),
            Ok(Answer::Adopted(cost)) => Some(Reply::Redrawn { cost }),
            // A draft is replied to by its adoption, and no line dismisses one.
            Ok(Answer::Drafted { .. } | Answer::Dismissed) => self.reply,
            Err(why) => Some(refused(why)),
        };
    }
}

// Spends a slip that is left.
fn spend(dispatcher: &mut Dispatcher, slip: Option<Slip>)
    ensures { slip ≡ None → dispatcher.new ≡ dispatcher.old }
{
    if let Some(slip) = slip {
        let _ = dispatcher.dismiss(slip);
    }
}

// Carries out entries with one pocket, and answers the reply to their calls.
fn carry<C: Cost, L: WaitingList>(
    dispatcher: &mut Dispatcher,
    entries: &mut [Entry<C, L>],
) -> Option<Reply>
    ensures { Carries (cost_rules C.start C.next) (list_rules L.nodes L.moves L.capacity)
        entries.old dispatcher.old entries.new result dispatcher.new }
{
    let mut pockets = [None];
    let mut watch = Replying { reply: None };
    dispatcher.carry_all(entries, &mut pockets, &mut watch);
    let [slip] = pockets;
    spend(dispatcher, slip);
    watch.reply
}

pub(crate) fn hold(dispatcher: &mut Dispatcher, shuttle: u32, ticks: u32) -> Reply
    ensures obeyed { (sheet : List ℕ) → Obeyed (Some (command.Hold shuttle ticks)) result
        dispatcher.old dispatcher.new sheet sheet }
    ensures plain { IsPlain result }
{
    let shuttle = shuttle as usize;
    let mut entries: [LineEntry<'_>; 1] = [Entry::Hold { shuttle, ticks }];
    carry(dispatcher, &mut entries).unwrap()
}

pub(crate) fn tick(dispatcher: &mut Dispatcher, standing: u32) -> Reply
    ensures obeyed { (sheet : List ℕ) → Obeyed (Some (command.Tick standing)) result
        dispatcher.old dispatcher.new sheet sheet }
    ensures plain { IsPlain result }
{
    let mut entries: [LineEntry<'_>; 1] = [Entry::Tick { standing }];
    carry(dispatcher, &mut entries).unwrap()
}

// Drafts by the sum of the arrivals, and adopts the draft.
pub(crate) fn redraw(dispatcher: &mut Dispatcher, budget: u32) -> Reply
    ensures obeyed { (sheet : List ℕ) → Obeyed (Some (command.Redraw budget)) result
        dispatcher.old dispatcher.new sheet sheet }
    ensures plain { IsPlain result }
{
    let mut memory = [Node::default(); HEAP_ROOM];
    let draft = Entry::Draft {
        cost: Sum,
        list: Dive::new(NodeHeap::new(&mut memory)),
        budget,
        pocket: 0,
    };
    let mut entries: [LineEntry<'_>; 2] = [draft, Entry::Adopt { pocket: 0 }];
    carry(dispatcher, &mut entries).unwrap()
}
