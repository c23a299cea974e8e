ghost use Rattle.std.specs.Prelude.{◌≡◌, map, IfOk};
ghost use Rattle.gt_model.specs.Schema.{TextKey, table_rows};
ghost use Rattle.gt_model.specs.Views.{table_entry};
ghost use Rattle.gt_read.specs.Drafts.Views.{table_draft, table_parts, table_entry_draft, table_entry_parts, table_held, table_finished};
ghost use Rattle.gt_read.specs.Drafts.Draft.{entered_map};
ghost use Rattle.gt_read.specs.Drafts.Entries.{entry_rows, EntryFinishes};
ghost use Rattle.gt_read.specs.Faults.{piece_faults, faults, entry_faults, message_faults, in_run};
ghost use Rattle.gt_read.specs.Kinds.{run_of};
ghost use Rattle.gt_read.specs.Drafts.Answers.{piece, Answers, Starts, Steps, Finishes};

use crate::children::{finish_message, take_message};
use crate::fault::FormatFault;
use crate::ids::IdFault;
use crate::message::{Message, read_message};
use crate::module_drafts::{TableEntry, TableEntryDraft, TableParts};
use crate::names::Name;
use crate::pieces::{Carried, Piece};
use crate::slots::{take_bytes, take_text};
use gr_base::{Bytes, End, Seq, Text};
use gt_model::Aux;
use std::alloc::{AllocError, Global};
use std::collections::BTreeMap;

/// Takes an entry of the map from names to tables.
pub fn take_table(
    alloc: Global,
    tables: &mut BTreeMap<Name, TableParts>,
    part: &Piece<'_>,
) -> Result<(), End<FormatFault>>
    ensures { Answers result (in_run (λ place start bytes. message_faults (entry_faults TextKey (faults table_rows)) bytes start) part.now.place (piece part.now).carried)
        (λ _. map table_held tables.new.entries ≡ entered_map TextKey table_rows (map table_held tables.old.entries) (run_of (piece part.now))) }
{
    match &part.carried {
        Carried::Number(_) => Ok(()),
        Carried::Fixed => Ok(()),
        Carried::Bytes(run) => {
            let (entry, _) = read_message::<TableEntryDraft>(alloc, part.place, run)?;
            let TableEntry { name, parts } = entry;
            tables.insert(Name::new(name), parts)?;
            Ok(())
        }
    }
}

/// The tables in order.
pub fn finish_tables(
    alloc: Global,
    tables: BTreeMap<Name, TableParts>,
) -> Result<Seq<Aux>, AllocError>
    ensures { IfOk result (λ made. map table_entry made ≡ map table_finished tables.entries) }
{
    let mut items = Vec::new(alloc);
    for (name, parts) in tables {
        let TableParts { type_name, bytes } = parts;
        items.push(Aux {
            name: name.into_text(),
            type_name,
            bytes,
        })?;
    }
    Ok(Seq::from_vec(items))
}

impl Message for TableParts {
    type Made = TableParts;

    ghost starts = { Starts table_rows table_draft };

    ghost steps = { Steps table_rows table_draft };

    ghost faults = { piece_faults table_rows };

    ghost finishes = { Finishes table_rows table_draft table_parts };

    fn start(alloc: Global, _: u64) -> TableParts {
        TableParts {
            type_name: Text::new(alloc),
            bytes: Bytes::new(alloc),
        }
    }

    fn take(&mut self, alloc: Global, part: &Piece<'_>) -> Result<(), End<FormatFault>> {
        match part.number {
            1 => {
                take_text(alloc, &mut self.type_name, part)?;
                Ok(())
            }
            2 => {
                take_bytes(alloc, &mut self.bytes, part)?;
                Ok(())
            }
            _ => Ok(()),
        }
    }

    fn finish(self, _: Global) -> Result<(TableParts, Option<IdFault>), AllocError> {
        Ok((self, None))
    }
}

impl Message for TableEntryDraft {
    type Made = TableEntry;

    ghost starts = { Starts (entry_rows TextKey table_rows) table_entry_draft };

    ghost steps = { Steps (entry_rows TextKey table_rows) table_entry_draft };

    ghost faults = { entry_faults TextKey (faults table_rows) };

    ghost finishes = { EntryFinishes TextKey table_rows table_entry_draft table_entry_parts };

    fn start(alloc: Global, _: u64) -> TableEntryDraft {
        TableEntryDraft {
            name: Text::new(alloc),
            value: None,
        }
    }

    fn take(&mut self, alloc: Global, part: &Piece<'_>) -> Result<(), End<FormatFault>> {
        match part.number {
            1 => {
                take_text(alloc, &mut self.name, part)?;
                Ok(())
            }
            2 => {
                take_message(alloc, &mut self.value, part)?;
                Ok(())
            }
            _ => Ok(()),
        }
    }

    fn finish(self, alloc: Global) -> Result<(TableEntry, Option<IdFault>), AllocError> {
        let TableEntryDraft { name, value } = self;
        let (value, fault) = finish_message(alloc, value)?;
        match value {
            Some(parts) => Ok((TableEntry { name, parts }, fault)),
            None => {
                let parts = TableParts {
                    type_name: Text::new(alloc),
                    bytes: Bytes::new(alloc),
                };
                Ok((TableEntry { name, parts }, fault))
            }
        }
    }
}
