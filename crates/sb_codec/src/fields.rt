//! The part of a payload that is not read yet. It is read from left to right.

ghost use Rattle.std.specs.Prelude.{◌≡◌, ◌==◌, ◌*◌, ◌≤◌, [], length, IfOk, IfErr};
ghost use Rattle.std.specs.Vec.{vec_capacity};
ghost use Rattle.std.specs.Int.{w16, w64};
ghost use Rattle.sb_codec.specs.Refusal.{Reads, ReadsWithoutMemory};
ghost use Rattle.sb_codec.specs.Fields.{byte_field, bytes_field, number_field, text_field, long_text_field, list_field, times_field};
ghost use Rattle.sb_types.specs.Text.{is_name, is_key};
ghost use Rattle.sb_types.specs.Kinds.{shown};
ghost use Rattle.sb_codec.specs.Reading.{name_field, key_field, flag_field, content_field, tag_field, slot_field, entry_field, block_field, delta_field};
ghost use Rattle.sb_codec.specs.Reading.{hello_field, bye_field, write_field, done_field, refused_field, optional_field, pair_field};
ghost use Rattle.sb_codec.specs.Reading.{digest_field, prefix_field, place_field, ask_field, value_field, row_field, page_field};
ghost use Rattle.sb_codec.specs.Reading.{ask_status_field, short_text_field, identity_field, figure_field, peer_field, status_field};
ghost use Rattle.sb_codec.specs.Reading.{ask_change_field, notice_field, age_field, ages_field};
ghost use Rattle.sb_codec.specs.Messages.{message_field, TakesMemory};

use crate::list_item::ListItem;
use crate::message::{
    Ages, Ask, AskChange, AskStatus, Bye, Done, Figure, Hello, Message, NodeIdentity, NodeStatus,
    Notice, OwnerAge, PeerStatus, Refused, Row, Rows,
};
use crate::refusal::Refusal;
use sb_digest::{Digest, Pair};
use sb_types::{
    Block, ContentRef, Delta, Entry, Form, KIND_AGES, KIND_ASK, KIND_ASK_AGES, KIND_ASK_CHANGE,
    KIND_ASK_STATUS, KIND_BYE, KIND_DELTA, KIND_DIGEST, KIND_DONE, KIND_HELLO, KIND_NODE_STATUS,
    KIND_NOTICE, KIND_PUT, KIND_REFUSED, KIND_ROWS, Key, Kind, Name, Prefix, SharedEntry,
    ShortText, Slot, TAG_REMOVED, Value, Write,
};
use std::alloc::Global;
use std::marker::Model;

/// Takes room for `count` items, and at most for as many as the bytes could spell. The only refusal is `Memory`.
fn room_for<T: ListItem>(alloc: Global, count: u16, bytes: &[u8]) -> Result<Vec<T>, Refusal>
    ensures items { IfOk result (λ v. v.items ≡ []) }
    ensures within { IfOk result (λ v. T.LEAST * vec_capacity v ≤ length bytes.now) }
    ensures refusal { IfErr result (λ refusal. refusal ≡ Refusal.Memory) }
{
    let most = bytes.len() / T::LEAST;
    Ok(Vec::with_capacity(alloc, most.min(usize::from(count)))?)
}

/// The bytes that are not read yet. After a refusal they have no meaning.
#[derive(Drop)]
pub(crate) struct Fields<'a> {
    rest: &'a [u8],
}

impl<'a> Model for Fields<'a> {
    ghost use Rattle.std.specs.Prelude.{ℕ, List};

    ghost Value = { List ℕ };

    ghost view = { λ fields. fields.rest.now };
}

impl<'a> Fields<'a> {
    /// Makes fields of these bytes. No byte is read yet.
    pub(crate) fn new(rest: &'a [u8]) -> Fields<'a>
        ensures { result ≡ rest.now }
    {
        Fields { rest }
    }

    /// Returns whether every byte was read.
    pub(crate) fn is_empty(&self) -> bool
        ensures { result ≡ (length self.now == 0) }
    {
        self.rest.is_empty()
    }

    #[tactic(auto, unfolding(crate::specs::Fields::byte_field))]
    fn byte(&mut self) -> Result<u8, Refusal>
        ensures { ReadsWithoutMemory (λ x. x) (byte_field self.old) result self.new }
    {
        match self.rest {
            [] => Err(Refusal::Malformed),
            [byte, rest @ ..] => {
                self.rest = rest;
                Ok(*byte)
            }
        }
    }

    #[tactic(auto, unfolding(crate::specs::Fields::bytes_field))]
    fn bytes(&mut self, count: usize) -> Result<&'a [u8], Refusal>
        ensures read { ReadsWithoutMemory (λ x. x.now) (bytes_field count self.old) result self.new }
        ensures length { IfOk result (λ x. length x.now ≡ count) }
    {
        if self.rest.len() < count {
            return Err(Refusal::Malformed);
        }
        let (front, rest) = self.rest.split_at(count);
        self.rest = rest;
        Ok(front)
    }

    #[tactic(auto, unfolding(crate::specs::Fields::number_field))]
    fn u16(&mut self) -> Result<u16, Refusal>
        ensures { ReadsWithoutMemory (λ x. x) (number_field w16 self.old) result self.new }
    {
        let front = self.bytes(2)?;
        Ok(u16::from_be_bytes([front[0], front[1]]))
    }

    #[tactic(auto, unfolding(crate::specs::Fields::number_field))]
    fn u64(&mut self) -> Result<u64, Refusal>
        ensures { ReadsWithoutMemory (λ x. x) (number_field w64 self.old) result self.new }
    {
        let front = self.bytes(8)?;
        Ok(u64::from_be_bytes([
            front[0], front[1], front[2], front[3], front[4], front[5], front[6], front[7],
        ]))
    }

    #[tactic(auto, unfolding(crate::specs::Fields::text_field))]
    fn text(&mut self) -> Result<&'a [u8], Refusal>
        ensures { ReadsWithoutMemory (λ x. x.now) (text_field self.old) result self.new }
    {
        let len = self.byte()?;
        self.bytes(usize::from(len))
    }

    #[tactic(auto, unfolding(crate::specs::Fields::long_text_field))]
    fn long_text(&mut self) -> Result<&'a [u8], Refusal>
        ensures { ReadsWithoutMemory (λ x. x.now) (long_text_field self.old) result self.new }
    {
        let len = self.u16()?;
        self.bytes(usize::from(len))
    }

    #[tactic(auto, unfolding(crate::specs::Reading::name_field))]
    fn name(&mut self) -> Result<Name, Refusal>
        ensures { ReadsWithoutMemory (λ x. x) (name_field self.old) result self.new }
    {
        Ok(Name::read(self.text()?)?)
    }

    #[tactic(auto, unfolding(crate::specs::Reading::key_field))]
    fn key(&mut self) -> Result<Key, Refusal>
        ensures { ReadsWithoutMemory (λ x. x) (key_field self.old) result self.new }
    {
        Ok(Key::read(self.text()?)?)
    }

    #[tactic(auto, unfolding(crate::specs::Reading::prefix_field))]
    fn prefix(&mut self) -> Result<Prefix, Refusal>
        ensures { ReadsWithoutMemory (λ x. x) (prefix_field self.old) result self.new }
    {
        Ok(Prefix::read(self.text()?)?)
    }

    #[tactic(auto, unfolding(crate::specs::Reading::optional_field))]
    fn optional_name(&mut self) -> Result<Option<Name>, Refusal>
        ensures { ReadsWithoutMemory (λ x. x) (optional_field is_name self.old) result self.new }
    {
        match self.text()? {
            [] => Ok(None),
            text => Ok(Some(Name::read(text)?)),
        }
    }

    #[tactic(auto, unfolding(crate::specs::Reading::optional_field))]
    fn optional_key(&mut self) -> Result<Option<Key>, Refusal>
        ensures { ReadsWithoutMemory (λ x. x) (optional_field is_key self.old) result self.new }
    {
        match self.text()? {
            [] => Ok(None),
            text => Ok(Some(Key::read(text)?)),
        }
    }

    #[tactic(auto, unfolding(crate::specs::Reading::place_field))]
    fn place(&mut self) -> Result<Option<(Name, Key)>, Refusal>
        ensures { ReadsWithoutMemory (λ x. x) (place_field self.old) result self.new }
    {
        let owner = self.optional_name()?;
        let key = self.optional_key()?;
        match (owner, key) {
            (None, None) => Ok(None),
            (Some(owner), Some(key)) => Ok(Some((owner, key))),
            _ => Err(Refusal::Malformed),
        }
    }

    #[tactic(auto, unfolding(crate::specs::Reading::flag_field))]
    fn flag(&mut self) -> Result<bool, Refusal>
        ensures { ReadsWithoutMemory (λ x. x) (flag_field self.old) result self.new }
    {
        match self.byte()? {
            0 => Ok(false),
            1 => Ok(true),
            _ => Err(Refusal::Malformed),
        }
    }

    #[tactic(auto, unfolding(crate::specs::Reading::content_field))]
    fn content(&mut self, form: Form) -> Result<ContentRef<'a>, Refusal>
        ensures { ReadsWithoutMemory shown (content_field form self.old) result self.new }
    {
        match form {
            Form::Word => Ok(ContentRef::Word(self.text()?)),
            Form::Text => Ok(ContentRef::Text(self.long_text()?)),
            Form::Number => Ok(ContentRef::Number(self.u64()?)),
            Form::Truth => Ok(ContentRef::Truth(self.flag()?)),
        }
    }

    /// Reads what comes after the tag of a value.
    #[tactic(auto, unfolding(crate::specs::Reading::tag_field))]
    fn tagged_value(&mut self, alloc: Global, tag: u8) -> Result<Value, Refusal>
        ensures { Reads (λ x. x) (tag_field tag self.old) result self.new }
    {
        let Some(kind) = Kind::of_tag(tag) else {
            return Err(Refusal::Malformed);
        };
        let content = self.content(kind.form())?;
        Ok(Value::from_content(alloc, kind, content)?)
    }

    #[tactic(auto, unfolding(crate::specs::Reading::value_field))]
    fn value(&mut self, alloc: Global) -> Result<Value, Refusal>
        ensures { Reads (λ x. x) (value_field self.old) result self.new }
    {
        let tag = self.byte()?;
        self.tagged_value(alloc, tag)
    }

    #[tactic(auto, unfolding(crate::specs::Reading::slot_field))]
    fn slot(&mut self, alloc: Global) -> Result<Slot, Refusal>
        ensures { Reads (λ x. x) (slot_field self.old) result self.new }
    {
        match self.byte()? {
            TAG_REMOVED => Ok(Slot::Removed),
            tag => Ok(Slot::Set(self.tagged_value(alloc, tag)?)),
        }
    }

    #[tactic(auto, unfolding(crate::specs::Reading::entry_field))]
    fn entry(&mut self, alloc: Global) -> Result<Entry, Refusal>
        ensures { Reads (λ x. x) (entry_field self.old) result self.new }
    {
        let key = self.key()?;
        let version = self.u64()?;
        if version == 0 {
            return Err(Refusal::Malformed);
        }
        let slot = self.slot(alloc)?;
        Ok(Entry::new(key, version, slot))
    }

    /// Reads an entry, and puts it on the heap.
    pub(crate) fn shared_entry(&mut self, alloc: Global) -> Result<SharedEntry, Refusal>
        ensures { Reads (λ x. x) (entry_field self.old) result self.new }
    {
        let entry = self.entry(alloc)?;
        match SharedEntry::new(alloc, entry) {
            Ok(shared) => Ok(shared),
            Err(_) => Err(Refusal::Memory),
        }
    }

    #[tactic(auto, unfolding(crate::specs::Reading::block_field))]
    pub(crate) fn block(&mut self, alloc: Global) -> Result<Block, Refusal>
        ensures { Reads (λ x. x) (block_field self.old) result self.new }
    {
        let owner = self.name()?;
        let floor = self.u64()?;
        let after = self.u64()?;
        let upto = self.u64()?;
        let entries = self.list(alloc)?;
        Ok(Block::new(owner, floor, after, upto, entries)?)
    }

    #[tactic(auto, unfolding(crate::specs::Reading::delta_field))]
    fn delta(&mut self, alloc: Global) -> Result<Delta, Refusal>
        ensures { Reads (λ x. x) (delta_field self.old) result self.new }
    {
        let blocks = self.list(alloc)?;
        Ok(Delta::new(blocks)?)
    }

    #[tactic(auto, unfolding(crate::specs::Reading::hello_field))]
    fn hello(&mut self) -> Result<Hello, Refusal>
        ensures { ReadsWithoutMemory (λ x. x) (hello_field self.old) result self.new }
    {
        let cluster = self.name()?;
        let node = self.name()?;
        Ok(Hello { cluster, node })
    }

    #[tactic(auto, unfolding(crate::specs::Reading::pair_field))]
    pub(crate) fn pair(&mut self) -> Result<Pair, Refusal>
        ensures { ReadsWithoutMemory (λ x. x) (pair_field self.old) result self.new }
    {
        let owner = self.name()?;
        let upto = self.u64()?;
        let staged_floor = self.u64()?;
        let progress = self.u64()?;
        Ok(Pair {
            owner,
            upto,
            staged_floor,
            progress,
        })
    }

    #[tactic(auto, unfolding(crate::specs::Reading::digest_field))]
    fn digest(&mut self, alloc: Global) -> Result<Digest, Refusal>
        ensures { Reads (λ x. x) (digest_field self.old) result self.new }
    {
        let want = self.flag()?;
        let from = self.optional_name()?;
        let until = self.optional_name()?;
        let pairs = self.list(alloc)?;
        Ok(Digest::new(want, from, until, pairs)?)
    }

    #[tactic(auto, unfolding(crate::specs::Reading::bye_field))]
    fn bye(&mut self) -> Result<Bye, Refusal>
        ensures { ReadsWithoutMemory (λ x. x) (bye_field self.old) result self.new }
    {
        Ok(Bye::new(self.byte()?)?)
    }

    #[tactic(auto, unfolding(crate::specs::Reading::ask_field))]
    fn ask(&mut self) -> Result<Ask, Refusal>
        ensures { ReadsWithoutMemory (λ x. x) (ask_field self.old) result self.new }
    {
        let owner = self.optional_name()?;
        let prefix = self.prefix()?;
        let after = self.place()?;
        Ok(Ask {
            owner,
            prefix,
            after,
        })
    }

    #[tactic(auto, unfolding(crate::specs::Reading::row_field))]
    pub(crate) fn row(&mut self, alloc: Global) -> Result<Row, Refusal>
        ensures { Reads (λ x. x) (row_field self.old) result self.new }
    {
        let owner = self.name()?;
        let key = self.key()?;
        let version = self.u64()?;
        let value = self.value(alloc)?;
        Ok(Row::new(owner, key, version, value)?)
    }

    #[tactic(auto, unfolding(crate::specs::Reading::page_field))]
    fn rows(&mut self, alloc: Global) -> Result<Rows, Refusal>
        ensures { Reads (λ x. x) (page_field self.old) result self.new }
    {
        let more = self.flag()?;
        let rows = self.list(alloc)?;
        Ok(Rows::new(more, rows)?)
    }

    #[tactic(auto, unfolding(crate::specs::Reading::write_field))]
    fn write(&mut self, alloc: Global) -> Result<Write, Refusal>
        ensures { Reads (λ x. x) (write_field self.old) result self.new }
    {
        let key = self.key()?;
        let slot = self.slot(alloc)?;
        Ok(Write { key, slot })
    }

    #[tactic(auto, unfolding(crate::specs::Reading::done_field))]
    fn done(&mut self) -> Result<Done, Refusal>
        ensures { ReadsWithoutMemory (λ x. x) (done_field self.old) result self.new }
    {
        Ok(Done::new(self.u64()?)?)
    }

    #[tactic(auto, unfolding(crate::specs::Reading::refused_field))]
    fn refused(&mut self) -> Result<Refused, Refusal>
        ensures { ReadsWithoutMemory (λ x. x) (refused_field self.old) result self.new }
    {
        Ok(Refused::new(self.byte()?)?)
    }

    #[tactic(auto, unfolding(crate::specs::Reading::ask_status_field))]
    fn ask_status(&mut self) -> Result<AskStatus, Refusal>
        ensures { ReadsWithoutMemory (λ x. x) (ask_status_field self.old) result self.new }
    {
        Ok(AskStatus::new(self.u64()?))
    }

    #[tactic(auto, unfolding(crate::specs::Reading::short_text_field))]
    fn short_text(&mut self) -> Result<ShortText, Refusal>
        ensures { ReadsWithoutMemory (λ x. x) (short_text_field self.old) result self.new }
    {
        Ok(ShortText::read(self.text()?)?)
    }

    #[tactic(auto, unfolding(crate::specs::Reading::identity_field))]
    fn identity(&mut self) -> Result<NodeIdentity, Refusal>
        ensures { ReadsWithoutMemory (λ x. x) (identity_field self.old) result self.new }
    {
        let node = self.name()?;
        let cluster = self.name()?;
        let release = self.short_text()?;
        Ok(NodeIdentity {
            node,
            cluster,
            release,
        })
    }

    #[tactic(auto, unfolding(crate::specs::Reading::figure_field))]
    pub(crate) fn figure(&mut self) -> Result<Figure, Refusal>
        ensures { ReadsWithoutMemory (λ x. x) (figure_field self.old) result self.new }
    {
        let number = self.byte()?;
        let value = self.u64()?;
        Ok(Figure { number, value })
    }

    #[tactic(auto, unfolding(crate::specs::Reading::peer_field))]
    pub(crate) fn peer(&mut self) -> Result<PeerStatus, Refusal>
        ensures { ReadsWithoutMemory (λ x. x) (peer_field self.old) result self.new }
    {
        let path = self.short_text()?;
        let state = self.byte()?;
        let round = self.u64()?;
        Ok(PeerStatus { path, state, round })
    }

    #[tactic(auto, unfolding(crate::specs::Reading::status_field))]
    fn status(&mut self, alloc: Global) -> Result<NodeStatus, Refusal>
        ensures { Reads (λ x. x) (status_field self.old) result self.new }
    {
        let more = self.flag()?;
        let identity = self.identity()?;
        let figures = self.list(alloc)?;
        let peers = self.list(alloc)?;
        Ok(NodeStatus::new(more, identity, figures, peers)?)
    }

    #[tactic(auto, unfolding(crate::specs::Reading::ask_change_field))]
    fn ask_change(&mut self) -> Result<AskChange, Refusal>
        ensures { ReadsWithoutMemory (λ x. x) (ask_change_field self.old) result self.new }
    {
        let owner = self.optional_name()?;
        let prefix = self.prefix()?;
        let wait = self.u64()?;
        Ok(AskChange {
            owner,
            prefix,
            wait,
        })
    }

    #[tactic(auto, unfolding(crate::specs::Reading::notice_field))]
    fn notice(&mut self) -> Result<Notice, Refusal>
        ensures { ReadsWithoutMemory (λ x. x) (notice_field self.old) result self.new }
    {
        match self.byte()? {
            1 => Ok(Notice::Watching),
            2 => Ok(Notice::Changed),
            3 => Ok(Notice::Same),
            _ => Err(Refusal::Malformed),
        }
    }

    #[tactic(auto, unfolding(crate::specs::Reading::age_field))]
    pub(crate) fn age(&mut self) -> Result<OwnerAge, Refusal>
        ensures { ReadsWithoutMemory (λ x. x) (age_field self.old) result self.new }
    {
        let owner = self.name()?;
        let age = self.u64()?;
        Ok(OwnerAge { owner, age })
    }

    #[tactic(auto, unfolding(crate::specs::Reading::ages_field))]
    fn ages(&mut self, alloc: Global) -> Result<Ages, Refusal>
        ensures { Reads (λ x. x) (ages_field self.old) result self.new }
    {
        let ages = self.list(alloc)?;
        Ok(Ages::new(ages)?)
    }

    #[tactic(auto, unfolding(crate::specs::Messages::message_field, crate::specs::Fields::byte_field))]
    pub(crate) fn message(&mut self, alloc: Global) -> Result<Message, Refusal>
        ensures read { Reads (λ x. x) (message_field self.old) result self.new }
        ensures memory { IfErr result (λ refusal. refusal ≡ Refusal.Memory → TakesMemory self.old) }
    {
        match self.byte()? {
            KIND_HELLO => Ok(Message::Hello(self.hello()?)),
            KIND_DIGEST => Ok(Message::Digest(self.digest(alloc)?)),
            KIND_DELTA => Ok(Message::Delta(self.delta(alloc)?)),
            KIND_BYE => Ok(Message::Bye(self.bye()?)),
            KIND_ASK => Ok(Message::Ask(self.ask()?)),
            KIND_ROWS => Ok(Message::Rows(self.rows(alloc)?)),
            KIND_PUT => Ok(Message::Put(self.write(alloc)?)),
            KIND_DONE => Ok(Message::Done(self.done()?)),
            KIND_REFUSED => Ok(Message::Refused(self.refused()?)),
            KIND_ASK_STATUS => Ok(Message::AskStatus(self.ask_status()?)),
            KIND_NODE_STATUS => Ok(Message::NodeStatus(self.status(alloc)?)),
            KIND_ASK_CHANGE => Ok(Message::AskChange(self.ask_change()?)),
            KIND_NOTICE => Ok(Message::Notice(self.notice()?)),
            KIND_ASK_AGES => Ok(Message::AskAges),
            KIND_AGES => Ok(Message::Ages(self.ages(alloc)?)),
            _ => Err(Refusal::Malformed),
        }
    }

    #[tactic(auto, unfolding(crate::specs::Fields::list_field))]
    fn list<T: ListItem>(&mut self, alloc: Global) -> Result<Vec<T>, Refusal>
        ensures { Reads (λ v. v.items) (list_field T.field self.old) result self.new }
    {
        let count = self.u16()?;
        self.times(alloc, count)
    }

    fn times<T: ListItem>(&mut self, alloc: Global, count: u16) -> Result<Vec<T>, Refusal>
        ensures { Reads (λ v. v.items) (times_field T.field count self.old) result self.new }
    {
        let mut items = room_for(alloc, count, self.rest)?;
        for _ in 0..count {
            items.push(T::read(alloc, self)?)?;
        }
        Ok(items)
    }
}
