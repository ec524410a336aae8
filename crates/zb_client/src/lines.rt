ghost use Rattle.std.specs.Prelude.{◌≡◌, ◌+◌, ◌-◌, ◌<◌, ◌≤◌, ◌∷◌, ◌++◌, [], length, map, IfOk, OnOk, OnErr, true, false, Some, vec_len, vec_capacity, Option};
ghost use Rattle.zb_client.specs.Seen.{unready};
ghost use Rattle.zb_client.specs.Telling.{line, answers_read, gives_up, ends_all, unfinished_lines, reply_lines, Heard};

use crate::client::Client;
use crate::steps::{ReplyList, Told};
use zb_basis::Numbered;
use zb_types::{Cause, ItemList, Outcome, Said};
use zb_work::{Aim, aim_of, put_task};

/// One line of a call.
pub(crate) fn told_line(lines: Vec<Outcome>, client: u8, number: u64, said: Said) -> Told
    requires empty { lines.items ≡ [] }
    requires room { 1 ≤ vec_capacity lines }
    ensures { result ≡ Told.Lines (Outcome.Call client number said ∷ []) }
{
    let mut lines = lines;
    lines
        .push(Outcome::Call {
            client,
            number,
            said,
        })
        .unwrap();
    Told::Lines(ItemList::of(lines))
}

/// Each kept call is told to be unfinished.
fn told_unfinished(lines: Vec<Outcome>, client: u8, kept: &[Numbered], cause: Cause) -> Told
    requires empty { lines.items ≡ [] }
    requires room { length kept.now ≤ vec_capacity lines }
    ensures { result ≡ Told.Lines (unfinished_lines client cause kept.now) }
{
    let mut lines = lines;
    for call in kept {
        lines
            .push(Outcome::Call {
                client,
                number: call.number,
                said: Said::Unfinished(cause),
            })
            .unwrap();
    }
    Told::Lines(ItemList::of(lines))
}

/// The first kept calls are told their replies.
pub(crate) fn told_replies(
    lines: Vec<Outcome>,
    client: u8,
    kept: &[Numbered],
    replies: ReplyList,
) -> Told
    requires empty { lines.items ≡ [] }
    requires room { length kept.now ≤ vec_capacity lines }
    ensures { result ≡ Told.Lines (reply_lines client kept.now replies) }
{
    let mut lines = lines;
    let mut replies = replies.into_items();
    for call in kept {
        if replies.is_empty() {
            break;
        }
        let reply = replies.remove(0);
        lines
            .push(Outcome::Call {
                client,
                number: call.number,
                said: Said::Reply(reply),
            })
            .unwrap();
    }
    Told::Lines(ItemList::of(lines))
}

impl Client {
    /// The memory for the lines of the step that stands, which ends the readiness.
    fn lines(&mut self) -> Vec<Outcome>
        requires ready { self.old.is_ready ≡ true }
        ensures new { self.new ≡ unready self.old }
        ensures empty { result.items ≡ [] }
        ensures room { length self.old.kept + 1 ≤ vec_capacity result }
    {
        let _ = &self.kept;
        self.spare.take().unwrap()
    }

    /// The step ends without a line.
    pub(crate) fn tell_nothing(&mut self) -> Told
        ensures new { self.new ≡ unready self.old }
        ensures told { result ≡ Told.Nothing }
    {
        self.spare = None;
        Told::Nothing
    }

    /// Tells one line of a call.
    pub(crate) fn tell(&mut self, number: u64, said: Said) -> Told
        requires { self.old.is_ready ≡ true }
        ensures new { self.new ≡ unready self.old }
        ensures told { result ≡ Told.Lines (line self.old number said ∷ []) }
    {
        let lines = self.lines();
        told_line(lines, self.client, number, said)
    }

    /// The read at work is answered, and leaves the queue.
    pub(crate) fn answer_read(&mut self, said: Said) -> Told
        requires { self.old.is_ready ≡ true }
        ensures { answers_read self.old said ≡ record { client = self.new; told = result } }
    {
        put_task(&mut self.task, None);
        match self.queue.pop_front() {
            Some(read) => self.tell(read.number, said),
            None => self.tell_nothing(),
        }
    }

    /// Each kept call is told to be unfinished, and ends with that. Those in doubt stay kept until the doubt is over.
    fn end_all(&mut self, cause: Cause) -> Told
        requires { self.old.is_ready ≡ true }
        ensures { ends_all self.old cause ≡ record { client = self.new; told = result } }
    {
        let lines = self.lines();
        let told = told_unfinished(lines, self.client, &self.kept, cause);
        put_task(&mut self.task, None);
        self.kept.truncate(self.doubted);
        told
    }

    /// The work can't go on: the call that it is for is told so. An update stays kept.
    pub(crate) fn give_up(&mut self, cause: Cause) -> Told
        requires { self.old.is_ready ≡ true }
        ensures { gives_up self.old cause ≡ record { client = self.new; told = result } }
    {
        let Some(aim) = aim_of(&self.task) else {
            return self.tell_nothing();
        };
        if let Aim::Read = aim {
            return self.answer_read(Said::Failed(cause));
        }
        if let Aim::Update(number) = aim {
            put_task(&mut self.task, None);
            return self.tell(number, Said::Kept(cause));
        }
        self.end_all(cause)
    }
}
