//! The commands of a script.
ghost use Rattle.std.specs.Prelude.{◌≡◌, ◌↔◌, ◌∷◌, ◌++◌, Some, codes};
ghost use Rattle.link_scripts.specs.Script.{Takes, line_of, command_words, flow_words, IsCommandInRange};
ghost use Rattle.link_scripts.specs.Script.{IsFlowInRange, network_words, IsNetworkLineInRange};
ghost use Rattle.link_scripts.specs.Words.{words_left};

use crate::linkrun::word::Words;
use fairness::bandwidth::Flow;
use link_scheduler::call::Call;
use std::num::NonZeroU64;

/// A command of a script.
#[derive(Debug, Drop)]
pub enum Command {
    /// Adds a flow to the end of the list.
    Flow(Flow<u64>),
    /// From now on a peer's egress has this cap, in bytes a second.
    Egress {
        peer: u64,
        cap: Option<u128>,
    },
    /// From now on a peer's ingress has this cap, in bytes a second.
    Ingress {
        peer: u64,
        cap: Option<u128>,
    },
    /// From now on what goes from one peer to another has this cap, in bytes a second.
    Link {
        origin: u64,
        recipient: u64,
        cap: Option<u128>,
    },
    /// Asks for the rates of the flows.
    Rates,
    /// Says something of the network of links that routes lead over.
    Network(NetworkLine),
    /// Asks for the rates of the flows over routes.
    Routes,
    /// Asks something of the scheduler. A message is said by its length, and has zero bytes.
    Schedule(Call<u64, usize>),
}

/// What a line says of a network.
#[derive(Clone, Copy, Debug, PartialEq, Eq)]
pub enum NetworkLine {
    /// A flow uses a link.
    Hop { flow: u64, link: u64 },
    /// From now on the flows that use a link have this cap together, in bytes a second.
    Cap { link: u64, cap: Option<u128> },
    /// From now on a flow has this weight.
    Weight { flow: u64, weight: NonZeroU64 },
}

impl Command {
    /// The command that a line says, where the line is of the language. The most frequent ones are
    /// looked for first. It is inlined, so that a command is not copied on its way.
    #[inline(always)]
    pub fn parse(line: &[u8]) -> Option<Command>
        ensures { (command : Command) → (result ≡ Some command)
            ↔ ((line.now ≡ line_of command) × IsCommandInRange command) }
    {
        match line.split_first_chunk::<8>() {
            Some((b"enqueue ", columns)) => Command::of_enqueue(columns),
            Some((b"advance ", columns)) => Command::of_advance(columns),
            _ => Command::of_words(line),
        }
    }

    /// The command that a line says which has these columns behind `enqueue` and a space.
    #[inline(always)]
    fn of_enqueue(columns: &[u8]) -> Option<Command>
        ensures { (command : Command) → (result ≡ Some command)
            ↔ ((codes "enqueue " ++ columns.now ≡ line_of command) × IsCommandInRange command) }
    {
        let mut words = Words::of(columns);
        let command = take_enqueue(&mut words);
        match words.next() {
            None => command,
            Some(_) => None,
        }
    }

    /// The command that a line says which has these columns behind `advance` and a space.
    #[inline(always)]
    fn of_advance(columns: &[u8]) -> Option<Command>
        ensures { (command : Command) → (result ≡ Some command)
            ↔ ((codes "advance " ++ columns.now ≡ line_of command) × IsCommandInRange command) }
    {
        let mut words = Words::of(columns);
        let command = take_advance(&mut words);
        match words.next() {
            None => command,
            Some(_) => None,
        }
    }

    /// The command that a line says, word by word.
    #[inline(never)]
    fn of_words(line: &[u8]) -> Option<Command>
        ensures { (command : Command) → (result ≡ Some command)
            ↔ ((line.now ≡ line_of command) × IsCommandInRange command) }
    {
        let mut words = Words::of(line);
        let command = Command::take(&mut words);
        match words.next() {
            None => command,
            Some(_) => None,
        }
    }

    /// Takes the words of a command.
    fn take(words: &mut Words<'_>) -> Option<Command>
        ensures { Takes command_words IsCommandInRange (words_left words.old) result (words_left words.new) }
    {
        let name = words.next()?;
        Command::take_named(str::from_utf8(name).ok()?, words)
    }

    /// Takes the words of a command after its name.
    fn take_named(name: &str, words: &mut Words<'_>) -> Option<Command>
        ensures { Takes command_words IsCommandInRange (name.now ∷ words_left words.old) result
            (words_left words.new) }
    {
        match name {
            "advance" => take_advance(words),
            "enqueue" => take_enqueue(words),
            "flow" => Some(Command::Flow(flow(words)?)),
            "egress" => Some(Command::Egress {
                peer: words.number()?,
                cap: words.cap()?,
            }),
            "ingress" => Some(Command::Ingress {
                peer: words.number()?,
                cap: words.cap()?,
            }),
            "link" => take_link(words),
            "rates" => Some(Command::Rates),
            "limit" => take_limit(words),
            "limitlink" => take_limit_link(words),
            "next" => Some(Command::Schedule(Call::Next)),
            "routes" => Some(Command::Routes),
            _ => Some(Command::Network(NetworkLine::take(name, words)?)),
        }
    }
}

impl NetworkLine {
    /// Takes the words of a line about a network after its name.
    fn take(name: &str, words: &mut Words<'_>) -> Option<NetworkLine>
        ensures { Takes network_words IsNetworkLineInRange (name.now ∷ words_left words.old) result
            (words_left words.new) }
    {
        match name {
            "hop" => Some(NetworkLine::Hop {
                flow: words.number()?,
                link: words.number()?,
            }),
            "cap" => Some(NetworkLine::Cap {
                link: words.number()?,
                cap: words.cap()?,
            }),
            "weight" => Some(NetworkLine::Weight {
                flow: words.number()?,
                weight: words.weight()?,
            }),
            _ => None,
        }
    }
}

/// Takes the words of a flow.
fn flow(words: &mut Words<'_>) -> Option<Flow<u64>>
    ensures { Takes flow_words IsFlowInRange (words_left words.old) result (words_left words.new) }
{
    Some(Flow {
        id: words.number()?,
        origin: words.number()?,
        recipient: words.number()?,
        delivered: words.flag()?,
    })
}

/// Takes the words of an `enqueue` after that word.
#[inline(always)]
fn take_enqueue(words: &mut Words<'_>) -> Option<Command>
    ensures { Takes command_words IsCommandInRange (codes "enqueue" ∷ words_left words.old) result
        (words_left words.new) }
{
    Some(Command::Schedule(Call::Enqueue {
        now: words.number()?,
        origin: words.number()?,
        recipient: words.number()?,
        channel: words.number()?,
        message: words.length()?,
        latency: words.number()?,
        should_deliver: words.flag()?,
    }))
}

/// Takes the words of an `advance` after that word.
#[inline(always)]
fn take_advance(words: &mut Words<'_>) -> Option<Command>
    ensures { Takes command_words IsCommandInRange (codes "advance" ∷ words_left words.old) result
        (words_left words.new) }
{
    Some(Command::Schedule(Call::Advance {
        now: words.number()?,
    }))
}

/// Takes the words of a `link` after that word.
fn take_link(words: &mut Words<'_>) -> Option<Command>
    ensures { Takes command_words IsCommandInRange (codes "link" ∷ words_left words.old) result
        (words_left words.new) }
{
    Some(Command::Link {
        origin: words.number()?,
        recipient: words.number()?,
        cap: words.cap()?,
    })
}

/// Takes the words of a `limit` after that word.
fn take_limit(words: &mut Words<'_>) -> Option<Command>
    ensures { Takes command_words IsCommandInRange (codes "limit" ∷ words_left words.old) result
        (words_left words.new) }
{
    Some(Command::Schedule(Call::Limit {
        now: words.number()?,
        peer: words.number()?,
        egress: words.small_cap()?,
        ingress: words.small_cap()?,
    }))
}

/// Takes the words of a `limitlink` after that word.
fn take_limit_link(words: &mut Words<'_>) -> Option<Command>
    ensures { Takes command_words IsCommandInRange (codes "limitlink" ∷ words_left words.old) result
        (words_left words.new) }
{
    Some(Command::Schedule(Call::LimitLink {
        now: words.number()?,
        origin: words.number()?,
        recipient: words.number()?,
        cap: words.small_cap()?,
    }))
}
