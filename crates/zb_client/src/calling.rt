ghost use Rattle.std.specs.Prelude.{◌≡◌, ◌+◌, ◌<◌, ◌++◌, ◌∷◌, [], IfOk, OnErr, length, true, None, Some, vec_len, vec_capacity, Option};
ghost use Rattle.zb_types.specs.Apply.{is_update, is_bufferable};
ghost use Rattle.zb_work.specs.Fitting.{last_number};
ghost use Rattle.zb_client.specs.Calling.{BeginsUpdate};
ghost use Rattle.zb_client.specs.Hearing.{takes_call};

use crate::client::Client;
use crate::lines::told_line;
use crate::steps::Told;
use zb_basis::Numbered;
use zb_types::{MOST_KEPT, Mem, Said};
use zb_work::{Aim, Task, put_task};

/// Keeps a call, and tells its number and whether it may be buffered.
fn keep(kept: &mut Vec<Numbered>, call: Numbered) -> (u64, bool)
    requires { vec_len kept.old < vec_capacity kept.old }
    ensures kept { kept.new.items ≡ kept.old.items ++ call ∷ [] }
    ensures told { result ≡ (call.number, is_bufferable call.call) }
    ensures last { last_number kept.new.items ≡ Some call.number }
{
    let number = call.number;
    let bufferable = call.call.is_bufferable();
    kept.push(call).unwrap();
    (number, bufferable)
}

impl Client {
    /// Keeps the first queued call, an update: a write or a truncation is buffered while fewer than eight calls are kept
    /// with it; any other begins the commit of all kept calls.
    fn keep_call(&mut self) -> Mem<Told>
        requires ready { self.old.is_ready ≡ true }
        requires idle { self.old.task ≡ None }
        requires update { BeginsUpdate self.old.queue }
        ensures ok { IfOk result (λ told. takes_call self.old ≡ record { client = self.new; told = told }) }
        ensures err { OnErr result (self.new ≡ self.old) }
    {
        self.kept.reserve(1)?;
        let Some(call) = self.queue.pop_front() else {
            return Ok(self.tell_nothing());
        };
        let lines = self.spare.take().unwrap();
        let (number, bufferable) = keep(&mut self.kept, call);
        if bufferable && self.kept.len() < MOST_KEPT {
            return Ok(told_line(lines, self.client, number, Said::Buffered));
        }
        put_task(&mut self.task, Task::begin(Aim::Update(number)));
        Ok(Told::Nothing)
    }

    /// Takes the next queued call: an update is kept, and a read is at work behind the commit of all kept calls.
    pub(crate) fn take_call(&mut self) -> Mem<Told>
        requires ready { self.old.is_ready ≡ true }
        requires idle { self.old.task ≡ None }
        ensures ok { IfOk result (λ told. takes_call self.old ≡ record { client = self.new; told = told }) }
        ensures err { OnErr result (self.new ≡ self.old) }
    {
        match self.queue.front() {
            None => Ok(self.tell_nothing()),
            Some(first) if first.call.is_update() => self.keep_call(),
            Some(_) => {
                self.begin(Aim::Read);
                Ok(self.tell_nothing())
            }
        }
    }
}
