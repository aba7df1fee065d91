// A table that is being read.

ghost use Rattle.std.specs.Prelude.{◌≡◌, OnOk};
ghost use Rattle.toml.specs.Data.{table};
ghost use Rattle.toml.specs.View.{view};
ghost use Rattle.tmsh_read.specs.Sketch as spec;
ghost use Rattle.tmsh_read.specs.Sketch.{begun, closed, has, is_whole, sketch, stored};

use crate::item::Item;
use crate::next::Next;
use crate::section::{Block, Section};
use crate::tables::{add, has, put};
use crate::word::Word;
use px_bytes::M;
use std::alloc::Global;
use std::mem;
use toml::value::Array;
use toml::{Table, Value};

/// What was read of a text so far.
#[derive(Drop)]
pub(crate) struct Draft {
    pub alloc: Global,
    pub next: Next,
    /// Whether a stanza with limits stood there.
    pub limited: bool,
    pub limits: Table,
    pub servers: Array,
    pub pools: Array,
    pub rules: Array,
    pub groups: Array,
    /// The stanza that is open.
    pub stanza: Table,
    /// The names, members or rows of its array that is open.
    pub entries: Array,
    /// The member that is open.
    pub member: Table,
    /// The row that is open.
    pub row: Array,
}

impl Draft {
    /// Nothing was read yet.
    pub fn new(alloc: Global) -> Draft
        ensures { sketch result ≡ spec.blank }
    {
        Draft {
            alloc,
            next: Next::Stanza,
            limited: false,
            limits: Table::new(alloc),
            servers: Vec::new(alloc),
            pools: Vec::new(alloc),
            rules: Vec::new(alloc),
            groups: Vec::new(alloc),
            stanza: Table::new(alloc),
            entries: Vec::new(alloc),
            member: Table::new(alloc),
            row: Vec::new(alloc),
        }
    }

    /// Whether an item that is open has this one already.
    pub fn has(&self, item: Item) -> bool
        ensures { result ≡ has (sketch self.now) item }
    {
        match item.block() {
            Block::Limits => has(&self.limits, item.key()),
            Block::Member => has(&self.member, item.key()),
            Block::Row => self.row.len() > 1,
            _ => has(&self.stanza, item.key()),
        }
    }

    /// Whether these items have those that are required.
    pub fn is_whole(&self, block: Block) -> bool
        ensures { result ≡ is_whole (sketch self.now) block }
    {
        match block {
            Block::Server => self.has(Item::Listen),
            Block::Group => self.has(Item::Kind),
            _ => true,
        }
    }

    fn place(&mut self, item: Item, value: Value) -> M<()>
        ensures { OnOk result (sketch self.new ≡ spec.placed item (view value) (sketch self.old)) }
    {
        let alloc = self.alloc;
        match item.block() {
            Block::Limits => put(alloc, &mut self.limits, item.key(), value),
            Block::Member => put(alloc, &mut self.member, item.key(), value),
            Block::Row => add(&mut self.row, value),
            _ => put(alloc, &mut self.stanza, item.key(), value),
        }
    }

    /// Stores the value of an item, behind which further items may stand.
    pub fn store(&mut self, item: Item, value: Value) -> M<()>
        ensures { OnOk result (sketch self.new ≡ stored item (view value) (sketch self.old)) }
    {
        self.place(item, value)?;
        self.next = Next::Items(item.block());
        Ok(())
    }

    /// Stores the array that is open as the value of an item.
    pub fn store_entries(&mut self, item: Item) -> M<()>
        ensures { OnOk result (sketch self.new ≡ spec.stored_entries item (sketch self.old)) }
    {
        let entries = mem::replace(&mut self.entries, Vec::new(self.alloc));
        self.store(item, Value::Array(entries))
    }

    /// Begins a stanza of this name.
    pub fn begin(&mut self, section: Section, name: Word) -> M<()>
        ensures { OnOk result (sketch self.new ≡ begun section name (sketch self.old)) }
    {
        self.stanza = Table::new(self.alloc);
        put(self.alloc, &mut self.stanza, "name", name.into_value())?;
        self.next = section.after_name();
        Ok(())
    }

    fn close_stanza(&mut self) -> Value
        ensures value { view result ≡ table (sketch self.old).stanza }
        ensures draft { sketch self.new ≡ spec.without_stanza (sketch self.old) }
    {
        self.next = Next::Stanza;
        Value::Table(mem::replace(&mut self.stanza, Table::new(self.alloc)))
    }

    fn close_member(&mut self) -> M<()>
        ensures { OnOk result (sketch self.new ≡ spec.closed_member (sketch self.old)) }
    {
        self.next = Next::Members;
        let member = mem::replace(&mut self.member, Table::new(self.alloc));
        add(&mut self.entries, Value::Table(member))
    }

    fn close_row(&mut self) -> M<()>
        ensures { OnOk result (sketch self.new ≡ spec.closed_row (sketch self.old)) }
    {
        self.next = Next::Rows;
        let row = mem::replace(&mut self.row, Vec::new(self.alloc));
        add(&mut self.entries, Value::Array(row))
    }

    /// Ends these items.
    pub fn close(&mut self, block: Block) -> M<()>
        ensures { OnOk result (sketch self.new ≡ closed block (sketch self.old)) }
    {
        match block {
            Block::Limits => {
                self.next = Next::Stanza;
                Ok(())
            }
            Block::Server => {
                let stanza = self.close_stanza();
                add(&mut self.servers, stanza)
            }
            Block::Pool => {
                let stanza = self.close_stanza();
                add(&mut self.pools, stanza)
            }
            Block::Group => {
                let stanza = self.close_stanza();
                add(&mut self.groups, stanza)
            }
            Block::Member => self.close_member(),
            Block::Row => self.close_row(),
        }
    }

    /// Ends a rule of this text.
    pub fn close_rule(&mut self, text: Word) -> M<()>
        ensures { OnOk result (sketch self.new ≡ spec.closed_rule text (sketch self.old)) }
    {
        put(self.alloc, &mut self.stanza, "text", text.into_value())?;
        let stanza = self.close_stanza();
        add(&mut self.rules, stanza)
    }
}
