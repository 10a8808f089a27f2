//! What an attachment does next.

ghost use Rattle.std.specs.Prelude.{◌≡◌, ◌↔◌, ◌<◌, ℕ, None, Some, length, true};
ghost use Rattle.std.specs.Option.{option_map};
ghost use Rattle.fbc_kinds.specs.declared.replies.Reply.{Reply as AReply};
ghost use Rattle.fbc_world.specs.declared.asks.Ask.{Ask as AnAsk};
ghost use Rattle.fbc_world.specs.declared.asks.Ask.TheVariants as asks;
ghost use Rattle.fbc_world.specs.declared.asks.Cause.{Cause as ACause};
ghost use Rattle.fbc_attachment.specs.declared.attachment.Move.TheVariants as moves;
ghost use Rattle.fbc_attachment.specs.declared.due.Due.TheVariants as dues;
ghost use Rattle.fbc_attachment.specs.Attachment.{IsAtRest, IsImage, after_move, ask_of, is_trapped, move_next, polling, reply_told, roused};

use crate::attachment::{Attachment, Move};
use crate::due::Due;
use crate::polls::Polls;
use fbc_kinds::Reply;
use fbc_script::Statement;

impl Attachment {
    /// What it does next: the step that is due, its death where the trap names that step, or nothing. For a write, the bytes of
    /// the page stand in the image, of the size of a page. It takes no memory. A reply is handed out once.
    pub fn next(&mut self, image: &mut [u8]) -> Move
        ensures moves { result ≡ move_next self.old }
        ensures idle { (result ≡ moves.Idle) ↔ IsAtRest self.old }
        ensures die { (result ≡ moves.Die) ↔ (is_trapped (roused self.old) ≡ true) }
        ensures asked { (asked : AnAsk) → result ≡ moves.Ask asked → option_map ask_of self.new.due ≡ Some asked }
        ensures answered { (told : AReply) → result ≡ moves.Answered told → self.new.due ≡ Some dues.Note }
        ensures below { (page : ℕ) (cause : ACause) → result ≡ moves.Ask (asks.Write page cause) → page < self.old.limit }
        ensures spelled { (page : ℕ) (cause : ACause) → result ≡ moves.Ask (asks.Write page cause)
            → length image.old ≡ self.old.desk.cache.shape.size → IsImage self.old.desk.cache page image.new }
        ensures after { self.new ≡ after_move result (roused self.old) }
        ensures desk { self.new.desk ≡ self.old.desk }
        ensures image { length image.new ≡ length image.old }
    {
        self.rouse();
        let due = match self.due {
            Some(due) => due,
            None => return Move::Idle,
        };
        if self.is_trapped() {
            return Move::Die;
        }
        match due {
            Due::Note => Move::Answered(self.tell()),
            Due::Write { page, cause: _ } => {
                self.spell(page, image);
                Move::Ask(due.ask())
            }
            _ => Move::Ask(due.ask()),
        }
    }

    /// Where nothing is due, a statement that was given begins, or an idle attachment that was called asks for a callback.
    fn rouse(&mut self)
        ensures after { self.new ≡ roused self.old }
        ensures desk { self.new.desk ≡ self.old.desk }
    {
        if self.due.is_some() {
            return;
        }
        match self.statement {
            Some(Statement::Attach) => {
                self.due = Some(Due::Enter {
                    buffers: self.buffers,
                    name: self.name,
                });
            }
            Some(_) => self.ask_poll(None, false),
            None if self.is_called => self.ask_poll(None, true),
            None => {}
        }
    }

    /// It asks for a callback on a page past that one.
    pub(crate) fn ask_poll(&mut self, above: Option<u32>, is_idle: bool)
        ensures { self.new ≡ polling is_idle above self.old }
    {
        self.polls = Polls::Asked { is_idle };
        self.due = Some(Due::Poll { above });
    }

    /// Whether the step that is due is the one that the trap names.
    fn is_trapped(&self) -> bool
        ensures { result ≡ is_trapped self.now }
    {
        match self.trap {
            Some(trap) => trap.count == 1 && self.bears(trap.name),
            None => false,
        }
    }

    /// The reply.
    fn tell(&mut self) -> Reply
        ensures told { result ≡ reply_told self.old.reply }
        ensures after { self.new ≡ record self.old { reply = None } }
    {
        match self.reply.take() {
            Some(reply) => reply,
            None => Reply::Ok,
        }
    }

    /// The bytes of the page, in an image of its size.
    fn spell(&self, page: u32, image: &mut [u8])
        ensures spelled { length image.old ≡ self.now.desk.cache.shape.size → IsImage self.now.desk.cache page image.new }
        ensures length { length image.new ≡ length image.old }
    {
        let cache = self.desk.cache();
        if cache.has_copy(page) && image.len() == cache.page_size() as usize {
            cache.spell(page, image);
        }
    }
}
