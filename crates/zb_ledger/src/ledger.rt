ghost use Rattle.std.specs.Prelude.{◌≡◌, ◌+◌, ◌-◌, ◌<◌, ◌≤◌, ◌∷◌, ◌++◌, [], suc, IfOk, OnOk, OnErr, vec_len, vec_capacity};
ghost use Rattle.std.specs.Option.{option_copied};
ghost use Rattle.zb_claims.specs.Points.{did_if};
ghost use Rattle.zb_ledger.specs.Seen.{count_of, looked_of, call_at, ended, replied, saw_if, first_ledger, called, taken_back, looked_now, said_of, told};

use std::alloc::Global;
use std::collections::BTreeMap;
use std::marker::Model;
use zb_history::History;
use zb_types::{Call, Did, Mem, NoMemory, Outcome, Reply, Said, Saw};

/// The calls that were given, as far as they have no final line, and the history of those that were answered. Clients and
/// their calls are numbered from 1.
#[derive(Drop)]
pub struct Ledger {
    clients: u8,
    // By the client's number; place 0 is no client's.
    counts: Vec<u64>,
    looked: Vec<u64>,
    waiting: BTreeMap<(u8, u64), Call>,
    room: usize,
    history: History,
}

impl Model for Ledger {
    ghost use Rattle.std.specs.Prelude.{◌≡◌, ◌+◌, ◌≤◌, suc, length, vec_len, vec_capacity};
    ghost use Rattle.std.specs.List.Sorted.{IsStrictlySortedBy};
    ghost use Rattle.std.specs.Map.{keys_of};
    ghost use Rattle.zb_ledger.specs.Seen.{SeenLedger, key_cmp};

    ghost Value = { SeenLedger };

    ghost view = { λ a. record { clients = a.clients; counts = a.counts.items; looked = a.looked.items; waiting = a.waiting.entries; updates = a.history.updates.items; answered = a.history.reads.items; room = a.room } };

    ghost invariant = { λ a. (length a.counts.items ≡ suc a.clients) × (length a.looked.items ≡ suc a.clients) × IsStrictlySortedBy key_cmp (keys_of a.waiting.entries) × (vec_len a.history.updates + a.room ≤ vec_capacity a.history.updates) × (vec_len a.history.reads + a.room ≤ vec_capacity a.history.reads) };
}

// Makes room for so many updates and reads.
fn reserve_entries(history: &mut History, count: usize) -> Mem<()>
    ensures updates { history.new.updates.items ≡ history.old.updates.items }
    ensures reads { history.new.reads.items ≡ history.old.reads.items }
    ensures wide { vec_capacity history.old.updates ≤ vec_capacity history.new.updates }
    ensures long { vec_capacity history.old.reads ≤ vec_capacity history.new.reads }
    ensures update_fits { OnOk result (vec_len history.new.updates + count ≤ vec_capacity history.new.updates) }
    ensures read_fits { OnOk result (vec_len history.new.reads + count ≤ vec_capacity history.new.reads) }
{
    history.updates.reserve(count)?;
    history.reads.reserve(count)?;
    Ok(())
}

// A call that was answered, and how many updates stood where it was looked up.
#[derive(Drop)]
struct Answer {
    client: u8,
    number: u64,
    seen: u64,
    call: Call,
    reply: Reply,
}

// Adds it to the updates or to the reads, which takes no memory where there is room.
fn add_entry(history: &mut History, answer: Answer)
    requires update_fits { vec_len history.old.updates < vec_capacity history.old.updates }
    requires read_fits { vec_len history.old.reads < vec_capacity history.old.reads }
    ensures updates { history.new.updates.items ≡ history.old.updates.items ++ did_if answer.client answer.number answer.reply (Some answer.call) }
    ensures reads { history.new.reads.items ≡ history.old.reads.items ++ saw_if answer.client answer.number answer.seen answer.reply (Some answer.call) }
    ensures wide { vec_capacity history.new.updates ≡ vec_capacity history.old.updates }
    ensures long { vec_capacity history.new.reads ≡ vec_capacity history.old.reads }
    ensures update_room { vec_len history.new.updates ≤ vec_len history.old.updates + 1 }
    ensures read_room { vec_len history.new.reads ≤ vec_len history.old.reads + 1 }
{
    let Answer {
        client,
        number,
        seen,
        call,
        reply,
    } = answer;
    if call.is_update() {
        history.updates.push_reserved(Did {
            client,
            number,
            call,
            reply,
        });
    } else {
        history.reads.push_reserved(Saw {
            client,
            number,
            seen,
            call,
            reply,
        });
    }
}

impl Ledger {
    /// Of so many clients, none of which was given a call.
    pub fn new(alloc: Global, clients: u8) -> Mem<Ledger>
        ensures { IfOk result (λ ledger. ledger ≡ first_ledger clients) }
    {
        let count = usize::from(clients) + 1;
        Ok(Ledger {
            clients,
            counts: vec![in alloc; 0u64; count]?,
            looked: vec![in alloc; 0u64; count]?,
            waiting: BTreeMap::new(alloc),
            room: 0,
            history: History {
                updates: Vec::new(alloc),
                reads: Vec::new(alloc),
            },
        })
    }

    /// A client is given a call, of which a copy is kept. Answers its number, from 1; after 2^64 - 1 calls of the client no
    /// number is left, which is told as want of memory. Costs a logarithm of the calls that wait.
    pub fn call(&mut self, alloc: Global, client: u8, call: &Call) -> Mem<u64>
        requires own { client ≤ self.old.clients }
        ensures number { IfOk result (λ number. number ≡ suc (count_of self.old client)) }
        ensures ok { OnOk result (self.new ≡ called self.old client call.now) }
        ensures err { OnErr result (self.new ≡ self.old) }
    {
        let place = usize::from(client);
        let Some(number) = self.counts[place].checked_add(1) else {
            return Err(NoMemory);
        };
        let call = call.copy(alloc)?;
        self.waiting.insert((client, number), call)?;
        self.counts[place] = number;
        Ok(number)
    }

    /// Takes back the last call that a client was given, which waits. A call that is given and taken back leaves the ledger
    /// as it was. Takes no memory.
    pub fn take_back(&mut self, client: u8)
        requires own { client ≤ self.old.clients }
        requires some { 0 < count_of self.old client }
        ensures { self.new ≡ taken_back self.old client }
    {
        let place = usize::from(client);
        let number = self.counts[place];
        self.end(client, number);
        self.counts[place] = number - 1;
    }

    /// A client's read is looked up now: it sees all updates that were answered.
    pub fn look(&mut self, client: u8)
        requires own { client ≤ self.old.clients }
        ensures { self.new ≡ looked_now self.old client }
    {
        self.looked[usize::from(client)] = self.history.updates.len() as u64;
    }

    /// Makes room in the history for so many lines, in place of the room that there was.
    pub fn reserve(&mut self, lines: usize) -> Mem<()>
        ensures ok { OnOk result (self.new ≡ record self.old { room = lines }) }
        ensures err { OnErr result (self.new ≡ self.old) }
    {
        reserve_entries(&mut self.history, lines)?;
        self.room = lines;
        Ok(())
    }

    // How many updates stood where this client's read was looked up.
    fn looked(&self, client: u8) -> u64
        ensures { result ≡ looked_of self.now client }
    {
        match self.looked.get(usize::from(client)) {
            Some(looked) => *looked,
            None => 0,
        }
    }

    // A call has its final line, and is kept no longer.
    fn end(&mut self, client: u8, number: u64) -> Option<Call>
        ensures call { result ≡ call_at self.old.waiting client number }
        ensures ended { self.new ≡ ended self.old client number }
    {
        self.waiting.remove(&(client, number))
    }

    // A call that waits has its reply, and goes into the history.
    fn answer(&mut self, client: u8, number: u64, reply: Reply)
        requires room { 0 < self.old.room }
        ensures { self.new ≡ record (replied self.old client number reply) { room = self.old.room - 1 } }
    {
        let seen = self.looked(client);
        let found = self.end(client, number);
        self.room -= 1;
        if let Some(call) = found {
            add_entry(
                &mut self.history,
                Answer {
                    client,
                    number,
                    seen,
                    call,
                    reply,
                },
            );
        }
    }

    // A line leaves all but the room as it is.
    fn pass(&mut self)
        requires room { 0 < self.old.room }
        ensures { self.new ≡ record self.old { room = self.old.room - 1 } }
    {
        self.room -= 1;
    }

    // A call ends with no reply.
    fn give_up(&mut self, client: u8, number: u64)
        requires room { 0 < self.old.room }
        ensures { self.new ≡ record (ended self.old client number) { room = self.old.room - 1 } }
    {
        self.end(client, number);
        self.pass();
    }

    // This is said of a call.
    fn tell_call(&mut self, client: u8, number: u64, said: Said)
        requires room { 0 < self.old.room }
        ensures { self.new ≡ record (said_of self.old client number said) { room = self.old.room - 1 } }
    {
        match said {
            Said::Reply(reply) => self.answer(client, number, reply),
            Said::Buffered | Said::Kept(_) => self.pass(),
            Said::Failed(_) | Said::Dropped | Said::Unfinished(_) => self.give_up(client, number),
        }
    }

    /// A line is told. A reply goes into the history with its call, which waits no longer: an update behind the others, a
    /// read with as many updates as stood where it was looked up. Another final line ends its call. `kept` lines, those of
    /// jobs and events, and those of calls that don't wait change nothing but the room.
    pub fn tell(&mut self, line: Outcome)
        requires room { 0 < self.old.room }
        ensures { self.new ≡ told self.old line }
    {
        match line {
            Outcome::Call {
                client,
                number,
                said,
            } => self.tell_call(client, number, said),
            Outcome::Clean(_) | Outcome::Rebuild { .. } | Outcome::Event { .. } => self.pass(),
        }
    }

    /// The updates and the reads that were answered, each in their order.
    pub fn history(&self) -> &History
        ensures updates { result.now.updates.items ≡ self.now.updates }
        ensures reads { result.now.reads.items ≡ self.now.answered }
    {
        &self.history
    }

    /// How many calls a client was given.
    pub fn count(&self, client: u8) -> u64
        requires own { client ≤ self.now.clients }
        ensures { result ≡ count_of self.now client }
    {
        self.counts[usize::from(client)]
    }
}
